use sacn_receiver::{Ignored, Taken, reply_line};

#[test]
fn replies(rt: HostRuntime) {
    for (number, reply, text) in &[
        (
            1,
            Ok(Taken {
                sequence: 0,
                terminated: false,
            }),
            "1 taken 0\n",
        ),
        (
            18_446_744_073_709_551_615,
            Ok(Taken {
                sequence: 255,
                terminated: true,
            }),
            "18446744073709551615 taken 255 terminated\n",
        ),
        (2, Err(Ignored::Backwards), "2 ignored Backwards\n"),
        (3, Err(Ignored::OtherUniverse), "3 ignored OtherUniverse\n"),
        (4, Err(Ignored::Preview), "4 ignored Preview\n"),
        (5, Err(Ignored::AltStart), "5 ignored AltStart\n"),
        (6, Err(Ignored::OutOfSequence), "6 ignored OutOfSequence\n"),
        (7, Err(Ignored::SourcesFull), "7 ignored SourcesFull\n"),
    ] {
        assert!(rt; reply_line(*number, *reply).as_str() == *text, "{text}");
    }
}

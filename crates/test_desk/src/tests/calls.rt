use ascii_text::Words;
use console::{Call, Reading, done_line, instruction_in, read_call, reason_line, refused_line};
use desk_core::{Command, Instruction, Refused};

#[test]
fn calls_of_lines(rt: HostRuntime) {
    let rows: &[(&[u8], Reading)] = &[
        (b"", Reading::Blank),
        (b"  ! 0 go", Reading::Blank),
        (b"5 jump", Reading::Malformed),
        (
            b"000 Go ! now",
            Reading::At(0, Call::Order(Instruction::Plain(Command::Go))),
        ),
        (
            b"25,goto;1.5",
            Reading::At(25, Call::Order(Instruction::Plain(Command::Goto(1500)))),
        ),
        (
            b"7 goto 13 IN 1:30.5",
            Reading::At(
                7,
                Call::Order(Instruction::GotoIn {
                    cue: 13000,
                    time: 90500,
                }),
            ),
        ),
        (b"7 goto 13 in", Reading::Malformed),
        (b"7 goto 13 to 4", Reading::Malformed),
        (b"7 goto 13 in 4 5", Reading::Malformed),
        (
            b"1 sub 65535 50",
            Reading::At(1, Call::Order(Instruction::Plain(Command::Sub(65535, 128)))),
        ),
        (
            b"1 group 0 FL",
            Reading::At(1, Call::Order(Instruction::Plain(Command::Group(0, 255)))),
        ),
        (
            b"2 master H80",
            Reading::At(2, Call::Order(Instruction::Plain(Command::Master(128)))),
        ),
        (
            b"3 back",
            Reading::At(3, Call::Order(Instruction::Plain(Command::Back))),
        ),
        (
            b"4 end",
            Reading::At(4, Call::Order(Instruction::Plain(Command::End))),
        ),
        (
            b"999999999999999 tick",
            Reading::At(999_999_999_999_999, Call::Tick),
        ),
        (b"1000000000000000 tick", Reading::Malformed),
        (b"1 sub 65536 50", Reading::Malformed),
        (b"0 go 1", Reading::Malformed),
    ];
    for (line, reading) in rows {
        assert!(rt; read_call(line) == *reading, "{line:?}");
    }
}

#[test]
fn instructions_of_words(rt: HostRuntime) {
    let rows: &[(&[u8], Option<Instruction>)] = &[
        (b"goto 2", Some(Instruction::Plain(Command::Goto(2000)))),
        (b"tick", None),
    ];
    for (words, instruction) in rows {
        assert!(rt;
            instruction_in(&mut Words::new(words)) == *instruction,
            "{words:?}"
        );
    }
}

#[test]
fn answers(rt: HostRuntime) {
    assert!(rt;
        done_line(0).as_str() == "0 ok\n"
            && refused_line(69, Refused::Ended).as_str() == "69 refused Ended\n"
            && reason_line(14, "skipped", "NotSent").as_str() == "14 skipped NotSent\n"
    );
}

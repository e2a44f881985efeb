use night_record::{LineFront, NightLines, RecordKind, RecordRead, count_of_failed_read};
use std::io::ErrorKind;

const TEXT: &[u8] = b"0 tick\n25 tick\n50 t";

fn is_text(line: Option<&LineFront>, text: &[u8]) -> bool {
    line.is_some_and(|line| line.as_slice() == text)
}

// Of a file the part of a line is read again, and of a FIFO it is not.
#[test]
fn lines_of_a_record_come_in_pieces(rt: HostRuntime) {
    for is_file in &[true, false] {
        let mut lines = NightLines::new();
        assert!(rt; lines.next_place(*is_file) == Some(0));
        lines.take_up(&TEXT[..10]);
        assert!(rt; lines.has_line() && lines.next_place(*is_file).is_none());
        assert!(rt; is_text(lines.next_line().as_ref(), b"0 tick"));
        assert!(rt; lines.next_line().is_none() && !lines.has_line());
        let place = if *is_file { 7 } else { 10 };
        assert!(rt; lines.next_place(*is_file) == Some(place));
        lines.take_up(&TEXT[place as usize..]);
        assert!(rt; is_text(lines.next_line().as_ref(), b"25 tick") && !lines.has_line());
        assert!(rt; lines.next_line().is_none() && lines.bytes_given() == 15);
        assert!(rt; lines.rest().as_slice() == b"50 t".as_slice());
    }
}

#[test]
fn a_record_is_a_file_or_a_fifo(rt: HostRuntime) {
    let (file, fifo) = (RecordKind::File, RecordKind::Fifo);
    assert!(rt; RecordKind::of(true, false) == Some(file));
    assert!(rt; RecordKind::of(false, true) == Some(fifo));
    assert!(rt; RecordKind::of(false, false).is_none());
    assert!(rt; fifo.is_opened_to_write() && !file.is_opened_to_write());
    assert!(rt; file.next_read(None) == RecordRead::AtPlace);
    assert!(rt; fifo.next_read(Some(true)) == RecordRead::Onward);
    assert!(rt; fifo.next_read(Some(false)) == RecordRead::Nothing);
    assert!(rt; file.is_there(true, 15, 15) && !file.is_there(true, 14, 15));
    assert!(rt; fifo.is_there(true, 0, 15) && !fifo.is_there(false, 0, 15));
    assert!(rt; count_of_failed_read(ErrorKind::Interrupted) == Ok(0));
    assert!(rt; count_of_failed_read(ErrorKind::Other).is_err());
}

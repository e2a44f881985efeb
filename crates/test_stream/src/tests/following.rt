use cmd_live::memory::{MemoryPlayedRecord, MemoryWatch};
use cmd_live::{Backup, Ending, Led, MainConsole, Spare};
use devices::memory::Faults;
use night_record::LineFront;

fn front(text: &[u8]) -> LineFront {
    let mut line = LineFront::new();
    let _ = line.try_extend_from_slice(text);
    line
}

// Whether these lines are told, and then an end.
fn tells<M: MainConsole>(console: &mut M, lines: &[&[u8]]) -> bool {
    for line in lines {
        match console.next() {
            Led::Line(told) if told.as_slice() == *line => {}
            _ => return false,
        }
    }
    matches!(console.next(), Led::End)
}

#[test]
fn a_spare_takes_up_each_line(rt: HostRuntime) {
    let lines = [front(b"25 tick"), front(b"31 go"), front(b"50 tick")];
    let faults = Faults::new(0, 0);
    let record = MemoryPlayedRecord::new(rt.alloc(), lines.as_slice(), 1, 1, faults);
    let mut spare = Spare { record };
    assert!(rt; tells(&mut spare, &[b"25 tick", b"31 go", b"50 tick"]));
    assert!(rt; spare.record.has_lock && !spare.record.is_lost);
}

#[test]
fn a_spare_ends_where_its_record_fails(rt: HostRuntime) {
    let lines = [front(b"25 tick"), front(b"31 go")];
    let faults = Faults::new(1, 1);
    let record = MemoryPlayedRecord::new(rt.alloc(), lines.as_slice(), 1, 0, faults);
    let mut spare = Spare { record };
    assert!(rt; tells(&mut spare, &[b"25 tick"]));
    assert!(rt; !spare.record.has_lock);
}

#[test]
fn a_backup_follows_until_take_is_typed(rt: HostRuntime) {
    let lines = [
        front(b"! 3 lines dropped"),
        front(b"25 tick"),
        front(b"31 go"),
    ];
    let typed = [front(b"help"), front(b"go"), front(b"take")];
    let mut watch = MemoryWatch::new(rt.alloc(), lines.as_slice(), typed.as_slice(), 2);
    watch.begin();
    let mut backup = Backup::new(watch, 1000);
    assert!(rt; tells(&mut backup, &[b"25 tick", b"31 go"]));
    assert!(rt; backup.ending == Ending::Taken && !backup.watch.is_lost);
}

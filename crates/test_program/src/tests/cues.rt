use cmd_cues::{cues, cues_json};
use cmd_faults::RunFault;
use devices::memory::MemoryOutput;
use show_reader::ShowFault;
use std::alloc::Global;
use std::process::Abort;

#[derive(Clone, Copy, Debug)]
enum Form {
    Table,
    Json,
}

fn run(alloc: Global, form: Form, show: &[u8], out: &mut MemoryOutput) -> Result<(), RunFault> {
    match form {
        Form::Table => cues(alloc, show, out),
        Form::Json => cues_json(alloc, show, out),
    }
}

// The answer of a run and its output, of which so many of the first writes fail.
//
// Where the one allocation that a run lets fail failed here, the second run has all it needs.
fn end(
    alloc: Global,
    form: Form,
    show: &[u8],
    failing: u64,
) -> (Result<(), RunFault>, MemoryOutput) {
    let mut out = MemoryOutput::new(alloc, 0, failing);
    let answer = run(alloc, form, show, &mut out);
    let refused = answer == Err(RunFault::Memory) && out.faults.failed == 0 || out.full;
    if !refused || !out.bytes.is_empty() {
        return (answer, out);
    }
    let mut out = MemoryOutput::new(alloc, 0, failing);
    let answer = run(alloc, form, show, &mut out);
    (answer, out)
}

// A form, a show, how many of the first writes fail, the run's answer, and what it prints.
type Row<'a> = (Form, &'a [u8], u64, Result<(), RunFault>, &'a [u8]);

fn holds(alloc: Global, row: &Row<'_>) -> bool {
    let (form, show, failing, wanted, text) = *row;
    let (answer, out) = end(alloc, form, show, failing);
    answer == wanted && out.bytes.as_slice() == text
}

fn list_each(rt: &impl Abort, alloc: Global, rows: &[Row<'_>]) {
    for (place, row) in rows.iter().enumerate() {
        assert!(rt; holds(alloc, row), "row {place}");
    }
}

#[test]
fn faults(rt: HostRuntime) {
    let unread = Err(RunFault::Show(ShowFault::BadTime(2)));
    list_each(
        &rt,
        rt.alloc(),
        &[
            (Form::Table, b"CUE 1 ! one\nUP x\n", 0, unread, b""),
            (Form::Json, b"CUE 1 ! one\nUP x\n", 0, unread, b""),
            (Form::Table, b"CUE 1\n", 1, Err(RunFault::Device), b""),
            (Form::Json, b"CUE 1\n", 1, Err(RunFault::Device), b""),
        ],
    );
}

const SHOW: &[u8] = b"CUE 1.5 ! one\nUP 2.5\nFOLLOWON 1:00\nSUB 2\nTEXT a\"b\x7f\nGROUP 3\n\
    PATCH 1 1<1@FL\n";

#[test]
fn lists(rt: HostRuntime) {
    list_each(
        &rt,
        rt.alloc(),
        &[
            (
                Form::Table,
                SHOW,
                0,
                Ok(()),
                b"     cue       up    delay     down    delay   follow  channels  label\n\
                \x20    1.5      2.5        0      2.5        0       60         0  one\n\
                \nsubmaster  channels  label\n        2         0  a\"b?\n\
                \n    group  channels  label\n        3         0\n\
                \n universe   dimmers\n        1         1\n",
            ),
            (
                Form::Json,
                SHOW,
                0,
                Ok(()),
                b"{\"cues\":[\n{\"number\":\"1.5\",\"label\":\"one\",\"up\":2.5,\"up_delay\":0,\
                \"down\":2.5,\"down_delay\":0,\"follow\":60,\"channels\":0}],\n\
                \"submasters\":[\n{\"number\":2,\"label\":\"a\\\"b\\u007f\",\"channels\":0}],\n\
                \"groups\":[\n{\"number\":3,\"label\":\"\",\"channels\":0}],\n\
                \"universes\":[\n{\"universe\":1,\"dimmers\":1}],\n\
                \"patch\":[\n{\"dimmer\":1,\"channel\":1,\"level\":255}]}\n",
            ),
        ],
    );
}

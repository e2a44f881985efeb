use crate::bounded_output::{BoundedOutput, PolledWay};
use crate::messages::Messages;
use crate::writers::{wait_for_writers, written_files};
use line_queue::{LineOutput, OutputWatch, WrittenFiles, record_owed_line};
use std::fs::File;

/// Where the lines of a night are kept, if anywhere. Once it was told that the record failed,
/// nothing more is done with it.
#[derive(Drop)]
pub struct Record {
    lines: BoundedOutput<File>,
    // Its file before the night.
    before: WrittenFiles,
    // What was told of it.
    watch: OutputWatch,
}

impl Record {
    /// No record.
    pub fn none() -> Self {
        Record {
            lines: LineOutput::nowhere(),
            before: WrittenFiles {
                output: None,
                error: None,
            },
            watch: OutputWatch::default(),
        }
    }

    // Lines behind what stands in a file.
    pub(crate) fn behind(rt: &HostRuntime, lines: BoundedOutput<File>) -> Self {
        let before = written_files(rt, &lines, &no_output());
        Record {
            lines,
            before,
            watch: OutputWatch::default(),
        }
    }

    /// Keeps a line, or drops it. Where the record is late, is whole again, or cannot be written
    /// any more, that is told.
    pub fn keep(&mut self, line: &[u8], messages: &mut Messages) {
        self.put(line, false, messages);
    }

    /// Keeps a line before the night begins: none is dropped as long as they are taken, and so that
    /// may take time.
    pub fn copy(&mut self, line: &[u8], messages: &mut Messages) {
        self.put(line, true, messages);
    }

    fn put(&mut self, line: &[u8], may_wait: bool, messages: &mut Messages) {
        if self.watch.has_failed {
            return;
        }
        self.lines.put(line);
        if may_wait && self.lines.is_late() {
            self.lines.finish();
        }
        self.tell_news(messages);
    }

    /// Hands on what waits, at the end of the night, and waits for the writer of the record's file.
    /// How many bytes that still owes, if any, is told.
    pub fn finish(&mut self, rt: &HostRuntime, messages: &mut Messages) {
        if self.watch.has_failed {
            return;
        }
        self.lines.finish();
        self.tell_news(messages);
        if self.watch.has_failed {
            return;
        }
        let left = wait_for_writers(rt, &self.lines, &no_output(), self.before);
        if left > 0 {
            messages.put(record_owed_line(left).as_str().as_bytes());
        }
    }

    fn tell_news(&mut self, messages: &mut Messages) {
        if let Some(notice) = self.watch.look(self.lines.look()) {
            messages.put(notice.record_line().as_bytes());
        }
    }
}

// A record has one file.
fn no_output() -> BoundedOutput<File> {
    LineOutput::<PolledWay<File>>::nowhere()
}

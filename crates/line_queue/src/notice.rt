ghost use Rattle.std.specs.Prelude.{◌≡◌, ◌≤◌, ◌+◌, length};

use arrayvec::ArrayString;
use itoa::Buffer;

/// A notice: 34 bytes of words, a number of 20 digits and ` dropped` have room.
pub type NoticeText = ArrayString<64>;

/// The words of the notices in an output.
#[derive(Clone, Copy, Debug)]
pub struct Notice {
    /// What stands in front of a notice: `! `.
    pub mark: &'static str,
    /// What the lines of the output are: `replies`.
    pub lines: &'static str,
    pub ghost short: { length mark.now + length lines.now ≤ 34 },
}

impl Notice {
    ghost use Rattle.line_queue.specs.Notices.{notice_text};

    /// The line that stands in place of so many lines.
    pub fn text(&self, count: u64) -> NoticeText
        ensures { result.bytes ≡ notice_text self.now count }
    {
        let mut text = NoticeText::new();
        text.push_str(self.mark);
        text.push_str(Buffer::new().format(count));
        text.push_str(" ");
        text.push_str(self.lines);
        text.push_str(" dropped\n");
        text
    }
}

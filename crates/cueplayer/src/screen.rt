use line_queue::{Notice, OutputNotice, OutputWatch, WrittenFiles, outputs_owed_line};
use std::io::Stdout;
use system_devices::{
    BoundedOutput, DeviceFault, Messages, Names, open_output, wait_for_writers, written_files,
};

const NAMES: Names = Names {
    output: "standard output",
    pipe: "CUEPLAYER_OUTPUT_PIPE",
    notice: Notice {
        mark: "",
        lines: "replies",
    },
};

// What is told of replies that cannot be written any more.
const REPLIES_FAILED: &str = "replies: device fault\n";

/// Standard output, as replies go there.
pub type Replies = BoundedOutput<Stdout>;

/// Opens standard output.
///
/// # Errors
///
/// As those of [`open_output`].
pub fn open_replies(rt: &HostRuntime) -> Result<Replies, DeviceFault> {
    open_output(rt, rt.stdout(), NAMES)
}

/// What the operator of a night sees: replies on standard output, and messages on standard error
/// behind the replies that were shown before them. They hold nobody up, and a reader of replies
/// that has gone is told of once.
#[derive(Drop)]
pub struct Screen {
    replies: Replies,
    messages: Messages,
    // Their files before the night.
    before: WrittenFiles,
    // What was told of the replies.
    watch: OutputWatch,
}

impl Screen {
    /// The screen of a night that begins.
    pub fn new(rt: &HostRuntime, replies: Replies, messages: Messages) -> Self {
        let before = written_files(rt, &replies, &messages);
        Screen {
            replies,
            messages,
            before,
            watch: OutputWatch::default(),
        }
    }

    /// Shows a reply on standard output, as soon as what waits is handed on. A tick can have
    /// thousands of them.
    pub fn show(&mut self, line: &[u8]) {
        self.replies.take(line);
    }

    /// Tells a line on standard error, behind the replies that were shown before it.
    pub fn tell(&mut self, line: &[u8]) {
        self.replies.hand_on();
        self.messages.put(line);
    }

    /// Where messages are told.
    pub fn messages(&mut self) -> &mut Messages {
        &mut self.messages
    }

    /// Hands on what waits, as far as it is taken at once: the replies, and then the messages.
    pub fn hand_on(&mut self) {
        self.replies.hand_on();
        self.tell_failure();
        self.messages.hand_on();
    }

    /// Hands on what waits, at the end of the night: the replies, and then the messages. Then it
    /// waits for the processes that write their files, and tells how many bytes these still owe.
    pub fn finish(&mut self, rt: &HostRuntime) {
        self.replies.finish();
        self.tell_failure();
        self.messages.finish();
        let left = wait_for_writers(rt, &self.replies, &self.messages, self.before);
        if left > 0 {
            self.messages
                .put(outputs_owed_line(left).as_str().as_bytes());
            self.messages.finish();
        }
    }

    fn tell_failure(&mut self) {
        if self.watch.look(self.replies.look()) == Some(OutputNotice::Failed) {
            self.messages.put(REPLIES_FAILED.as_bytes());
        }
    }
}

ghost use Rattle.std.specs.Prelude.{◌≡◌};
ghost use Rattle.line_queue.specs.Watches.{told_after, news_of_output, record_notice};

/// How an output is at a look.
#[derive(Clone, Copy, Debug, Default, PartialEq, Eq)]
pub struct OutputLook {
    /// A write failed, and nothing more is written.
    pub has_failed: bool,
    /// Lines wait until they are taken, or were dropped and no notice stands in their place yet.
    pub is_late: bool,
    /// How many notices stand in place of lines.
    pub gaps: u64,
}

/// What an operator is to be told of an output.
#[derive(Clone, Copy, Debug, PartialEq, Eq)]
pub enum OutputNotice {
    /// Nothing more is written.
    Failed,
    /// Lines wait, or were dropped.
    Late,
    /// All lines stand in it.
    Whole,
    /// It goes on, and lines are missing.
    Missing,
}

impl OutputNotice {
    /// The line about a record.
    pub fn record_line(self) -> &'static str
        ensures { result.now ≡ record_notice self }
    {
        match self {
            OutputNotice::Failed => "record: device fault\n",
            OutputNotice::Late => "record: late, and the light goes on\n",
            OutputNotice::Whole => "record: whole again\n",
            OutputNotice::Missing => {
                "record: goes on, and a comment in it says how many lines are missing\n"
            }
        }
    }
}

/// What was told of an output.
#[derive(Clone, Copy, Debug, Default, PartialEq, Eq)]
pub struct OutputWatch {
    pub has_failed: bool,
    pub is_late: bool,
    pub gaps: u64,
}

impl OutputWatch {
    /// Takes up how the output is, and returns what is to be told of it: a notice where it is
    /// another than was told. Behind a failure nothing is told.
    pub fn look(&mut self, now: OutputLook) -> Option<OutputNotice>
        ensures notice { result ≡ news_of_output self.old now }
        ensures told { self.new ≡ told_after self.old now }
    {
        if self.has_failed {
            return None;
        }
        if now.has_failed {
            self.has_failed = true;
            return Some(OutputNotice::Failed);
        }
        if now.is_late == self.is_late {
            return None;
        }
        self.is_late = now.is_late;
        if now.is_late {
            return Some(OutputNotice::Late);
        }
        let are_missing = now.gaps != self.gaps;
        self.gaps = now.gaps;
        if are_missing {
            Some(OutputNotice::Missing)
        } else {
            Some(OutputNotice::Whole)
        }
    }
}

use night_opening::LiveWords;
use night_record::NightOpening;
use remarks::{JobFault, of_record};
use system_devices::{Messages, Pause, Record, RecordFile};

/// The file of a night's record, before the night begins or goes on in it: no other process keeps
/// it, as far as the file system has locks.
#[derive(Drop)]
pub struct HeldRecord<'w> {
    name: &'w str,
    file: RecordFile,
}

impl<'w> HeldRecord<'w> {
    /// The file of this name, which is locked.
    pub fn of(name: &'w str, file: RecordFile) -> Self {
        HeldRecord { name, file }
    }

    /// Opens and locks the record that these words name, if they name one.
    ///
    /// # Errors
    ///
    /// `Record` where it cannot be kept.
    pub fn open(rt: &HostRuntime, words: &LiveWords<'w>) -> Result<Option<Self>, JobFault> {
        let Some(name) = words.record_file else {
            return Ok(None);
        };
        match RecordFile::open(rt, name, words.resumes) {
            Ok(file) => Ok(Some(HeldRecord { name, file })),
            Err(fault) => Err(of_record(name, fault)),
        }
    }

    /// What stands in it, where a night resumes.
    pub fn text(&self) -> &[u8] {
        self.file.text()
    }

    /// How many bytes stand in it.
    pub fn length(&self) -> u64 {
        self.file.length()
    }

    /// Whether its lock could be made.
    pub fn has_lock(&self) -> bool {
        self.file.has_lock()
    }

    /// How long nobody had written to it, where a night resumes.
    pub fn pause(&self) -> Option<Pause> {
        self.file.pause()
    }

    /// Begins the record, or cuts it behind the last line of its night: its head is written where
    /// the night begins there.
    ///
    /// # Errors
    ///
    /// `Record` where the file does not keep the night; then nothing is written.
    pub fn begin(
        self,
        rt: &HostRuntime,
        opening: &NightOpening,
        messages: &mut Messages,
    ) -> Result<Record, JobFault> {
        let HeldRecord { name, file } = self;
        let kept = file.keep_lines(rt, opening.lines.to);
        let mut record = kept.map_err(|fault| of_record(name, fault))?;
        if let Some(head) = &opening.head {
            record.keep(head.as_slice(), messages);
        }
        Ok(record)
    }
}

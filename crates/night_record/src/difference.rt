ghost use Rattle.std.specs.Prelude.{◌≡◌};
ghost use Rattle.night_record.specs.Difference.{difference};

use crate::head::RecordHead;

/// The first part in which two heads differ, in this order.
#[derive(Clone, Copy, Debug, PartialEq, Eq)]
pub enum Difference {
    /// The checksum of the show file.
    Show,

    /// The CID of who sends.
    Cid,

    /// The priority of the packets.
    Priority,

    /// The number of the first universe.
    Base,

    /// The name of the source.
    Name,
}

impl RecordHead {
    /// Where this head is not that of the night, the first part that differs. When each was begun
    /// does not count.
    pub fn differs_from(&self, of_night: &RecordHead) -> Option<Difference>
        ensures { result ≡ difference self.now of_night.now }
    {
        if self.show != of_night.show {
            Some(Difference::Show)
        } else if self.cid != of_night.cid {
            Some(Difference::Cid)
        } else if self.priority != of_night.priority {
            Some(Difference::Priority)
        } else if self.base != of_night.base {
            Some(Difference::Base)
        } else if self.name.as_bytes() != of_night.name.as_bytes() {
            Some(Difference::Name)
        } else {
            None
        }
    }
}

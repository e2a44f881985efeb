ghost use Rattle.std.specs.Prelude.{◌≡◌};
ghost use Rattle.link_notices.specs.Told.{again_of_path, again_of_source};
ghost use Rattle.link_notices.specs.Told.{news_of_path, news_of_source};
ghost use Rattle.link_notices.specs.Told.{told_of_path};

use crate::{PathNotice, SourceNotice, SourceState, Trouble};

/// What was told of an address that packets come from.
#[derive(Clone, Copy, Debug, Default)]
pub struct SourceWatch {
    pub told: SourceState,
}

impl SourceWatch {
    /// Takes up how the address is, and returns what is to be told of it: a notice where it is
    /// another than was told.
    pub fn look(&mut self, is: SourceState) -> Option<SourceNotice>
        ensures notice { result ≡ news_of_source self.old.told is }
        ensures told { self.new.told ≡ is }
    {
        let was = self.told;
        if was == is {
            return None;
        }
        self.told = is;
        Some(SourceNotice { was, is })
    }

    /// What is told once more of it: that it does not send.
    pub fn again(&self) -> Option<SourceNotice>
        ensures { result ≡ again_of_source self.now.told }
    {
        match self.told {
            SourceState::Sends => None,
            told => Some(SourceNotice {
                was: told,
                is: told,
            }),
        }
    }
}

/// What a look found on the way to a host.
#[derive(Clone, Copy, Debug)]
pub struct PathLook {
    /// The address that its packets come from can send, or there is none yet.
    pub has_link: bool,
    pub trouble: Trouble,
}

/// What was told of the way to a host.
#[derive(Clone, Copy, Debug, Default)]
pub struct PathWatch {
    pub told: Trouble,
}

impl PathWatch {
    /// Takes up what a look found, and returns what is to be told of it: a notice where the way has
    /// a link, and its trouble is another than was told.
    pub fn look(&mut self, found: PathLook) -> Option<PathNotice>
        ensures notice { result ≡ news_of_path self.old.told found }
        ensures told { self.new.told ≡ told_of_path self.old.told found }
    {
        let (was, is) = (self.told, found.trouble);
        if !found.has_link || was == is {
            return None;
        }
        self.told = is;
        Some(PathNotice { was, is })
    }

    /// What is told once more of it: a trouble, where the way has a link.
    pub fn again(&self, has_link: bool) -> Option<PathNotice>
        ensures { result ≡ again_of_path self.now.told has_link }
    {
        match self.told {
            Trouble::None => None,
            told if has_link => Some(PathNotice {
                was: told,
                is: told,
            }),
            _ => None,
        }
    }
}

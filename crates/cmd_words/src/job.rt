ghost use Rattle.std.specs.Prelude.{◌≡◌, IfOk, Some};
ghost use Rattle.cmd_words.specs.Plain.{has_own_options, night_of_play, plain_address, plain_night};
ghost use Rattle.cmd_words.specs.Plain.{play_job};

use crate::universe_list::UniverseList;
use std::alloc::{AllocError, Global};
use std::marker::Model;
use targets::{Address, Target, Targets};

// The TTL of multicast where no other is named.
pub(crate) const PLAIN_TTL: u8 = 1;

/// A name as the words gave it: of a file, a network card or a source. Contracts see its bytes.
#[derive(Debug, Drop)]
pub struct Name {
    text: String,
}

impl Model for Name {
    ghost use Rattle.std.specs.Prelude.{ℕ, List};

    ghost Value = { List ℕ };

    ghost use Rattle.std.specs.String.{string_bytes};

    ghost view = { λ name. string_bytes name.text };
}

impl Name {
    /// The name that this text is.
    ///
    /// # Errors
    ///
    /// If an allocation failed.
    pub fn new(alloc: Global, text: &str) -> Result<Name, AllocError>
        ensures { IfOk result (λ name. name ≡ text.now) }
    {
        Ok(Name {
            text: String::from_str(alloc, text)?,
        })
    }

    /// The name as text.
    pub fn as_str(&self) -> &str
        ensures { result.now ≡ self.now }
    {
        self.text.as_str()
    }
}

/// A night that is played to the network.
#[derive(Debug, Drop)]
pub struct Night {
    pub show: Name,

    /// Where the packets of each universe go.
    pub targets: Targets,

    /// The CID of who sends: the UUID's 16 bytes in order.
    pub cid: [u8; 16],

    /// The priority, 0 to 200 (100 where it is absent).
    pub priority: u8,

    /// The number of the first universe, 1 to 63,999 (1 where it is absent).
    pub base: u16,

    /// The network card to send by, by its name or its address.
    pub interface: Option<Name>,

    /// Whether packets may go by another card than that one, where the route leads by it.
    pub any_route: bool,

    /// The name of who sends: 1 to 63 bytes, no control character among them.
    pub name: Option<Name>,

    /// How many routers a packet to a multicast group may pass, and one: 1 to 255 (1 where it is
    /// absent).
    pub ttl: u8,
}

impl Night {
    /// The night that the plain words of `play` ask for: its one target is for all universes, and
    /// each further option is absent.
    pub fn plain(show: Name, to: ([u8; 4], u16), cid: [u8; 16], priority: u8, base: u16) -> Night
        ensures { result ≡ plain_night show to cid priority base }
    {
        let (host, port) = to;
        let mut targets = Targets::new();
        targets.add(Target {
            universes: None,
            address: Address { host, port },
        });
        Night {
            show,
            targets,
            cid,
            priority,
            base,
            interface: None,
            any_route: false,
            name: None,
            ttl: PLAIN_TTL,
        }
    }

    /// The job of `play` that plays this night.
    pub(crate) fn into_play(self) -> Job
        ensures job { result ≡ play_job self }
        ensures night { night_of_play result ≡ Some self }
    {
        let Some(to) = self.plain_address() else {
            return Job::PlayNight(self);
        };
        Job::Play {
            show: self.show,
            to,
            cid: self.cid,
            priority: self.priority,
            base: self.base,
        }
    }

    // The address of the one target of a night that plain words can ask for.
    fn plain_address(&self) -> Option<([u8; 4], u16)>
        ensures { result ≡ plain_address self.now }
    {
        if self.has_own_options() {
            return None;
        }
        match self.targets.as_slice() {
            [only] if only.universes.is_none() => Some((only.address.host, only.address.port)),
            _ => None,
        }
    }

    // Whether an option that plain words lack says something else than where it is absent.
    fn has_own_options(&self) -> bool
        ensures { result ≡ has_own_options self.now }
    {
        self.interface.is_some() || self.any_route || self.name.is_some() || self.ttl != PLAIN_TTL
    }
}

/// What `live` has beside the arguments of `play`: `[--record FILE] [--resume] [--spare]
/// [--start N] [--follow FILE] [--patience MS] [--end-with-input]`.
#[derive(Debug, Drop)]
pub struct LiveOptions {
    /// Where the lines that were played are written to.
    pub record_file: Option<Name>,

    /// Whether the night goes on in its record, which is named then.
    pub resumes: bool,

    /// Whether the night is a spare, which resumes.
    pub is_spare: bool,

    /// The cue that the night starts in, in thousandths, 1 to 9,999,999.
    pub start: Option<u32>,

    /// The record of another night that this one follows; it neither resumes nor starts in a cue
    /// then.
    pub main_file: Option<Name>,

    /// How long the followed record may be silent, in milliseconds, 1 to 60,000 (1,000 where it is
    /// absent).
    pub patience: u32,

    /// Whether the night ends where its input ends; else the light holds.
    pub ends_with_input: bool,
}

/// What the words ask for: one of the program's lines, with the values of its arguments.
#[derive(Debug, Drop)]
pub enum Job {
    /// `check SHOW`: read a show and print its counts.
    Check {
        show: Name,
    },

    /// `check SHOW --strict`: the same, but a show that may mean something else than is played is
    /// refused.
    CheckStrictly {
        show: Name,
    },

    /// `explain SHOW`: print which lines of a show are skipped, and why, and notes for its author.
    Explain {
        show: Name,
    },

    /// `cues SHOW [--json]`: print the cue list, as a table for people or as JSON for tools.
    Cues {
        show: Name,
        is_json: bool,
    },

    /// `look SHOW CUE --cid UUID`: print the packets of one cue at full. The cue number is in
    /// thousandths, 1 to 9,999,999, and the CID is the UUID's 16 bytes in order.
    Look {
        show: Name,
        cue: u32,
        cid: [u8; 16],
    },

    /// `slots SHOW CUE [--base U]`: print the levels of one cue at full, for people. The cue number
    /// is in thousandths, 1 to 9,999,999, and the base the number of the first universe, 1 to
    /// 63,999 (1 where it is absent).
    Slots {
        show: Name,
        cue: u32,
        base: u16,
    },

    /// `play SHOW --to ADDR --cid UUID [--priority P] [--base U]`: play input lines to the network.
    /// `to` is the IPv4 address and the UDP port of all universes, the CID is the UUID's 16 bytes
    /// in order, the priority 0 to 200 (100 where it is absent), and the base the number of the
    /// first universe, 1 to 63,999 (1 where it is absent). [`Night::plain`] is the night.
    Play {
        show: Name,
        to: ([u8; 4], u16),
        cid: [u8; 16],
        priority: u8,
        base: u16,
    },

    /// `play` with more targets, or one for some universes, or with a card, a name or a TTL that
    /// the plain form lacks: `[--interface CARD] [--any-route] [--name TEXT] [--ttl HOPS]`.
    PlayNight(Night),

    /// `live` with the arguments of `play`, and options of its own: play by the clock what is
    /// typed.
    Live {
        night: Night,
        options: LiveOptions,
    },

    /// `rehearse SHOW SCRIPT`: run a script in memory.
    Rehearse {
        show: Name,
        script: Name,
    },

    /// `listen ADDR UNIVERSE COUNT`: receive datagrams and print the replies to them. `at` is the
    /// IPv4 address and the UDP port to receive at, the universe is 1 to 63,999, and the count of
    /// datagrams 1 to 1,000,000.
    Listen {
        at: ([u8; 4], u16),
        universe: u16,
        count: u32,
    },

    /// `watch UNIVERSE..`: follow universes by the lines of standard input. They are 1 to 16, each
    /// 1 to 63,999, and none stands twice.
    Watch {
        universes: UniverseList,
    },
}

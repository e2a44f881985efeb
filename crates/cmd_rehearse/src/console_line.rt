use sacn_packet::SourceName;
use sacn_source::Identity;
use std::marker::Model;
use wire_world::Setup;

// The console of a header line, in little room: each line is moved about as what it says, and a
// source's name would make all of them large.
#[derive(Debug, Drop)]
pub struct ConsoleLine {
    pub base: u16,
    pub priority: u8,
    pub cid: [u8; 16],
}

impl Model for ConsoleLine {
    ghost use Rattle.std.specs.Prelude.{◌≤◌};
    ghost use Rattle.wire_world.specs.declared.setup.Setup.{Setup};
    ghost use Rattle.cmd_rehearse.specs.Forms.{setup};

    ghost Value = { Setup };

    ghost view = { λ line. setup line.base line.priority line.cid };

    ghost invariant = { λ line. line.priority ≤ 200 };
}

impl ConsoleLine {
    ghost use Rattle.std.specs.Prelude.{◌≡◌};

    // The console, with the program's name.
    pub fn setup(&self) -> Setup
        ensures { result ≡ self.now }
    {
        let name = SourceName::new("cueplayer").unwrap();
        let identity = Identity::new(self.cid, name, self.priority).unwrap();
        Setup {
            show: 0,
            base: self.base,
            identity,
        }
    }
}

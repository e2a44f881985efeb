ghost use Rattle.std.specs.Prelude.{◌≡◌};
ghost use Rattle.remarks.specs.Targets.{no_target, no_universe, of_target, target_twice};

use crate::remark::{Remark, join, part};
use itoa::Buffer;
use network_tables::host_text;
use targets::{Address, TargetMisfit};

/// What is wrong with the targets of a show.
pub fn of_target(misfit: TargetMisfit) -> Remark
    ensures { result.items ≡ of_target misfit }
{
    match misfit {
        TargetMisfit::NoUniverse { universe } => no_universe(universe),
        TargetMisfit::NoTarget { universe } => no_target(universe),
        TargetMisfit::Twice { universe, address } => target_twice(universe, address),
    }
}

fn no_universe(universe: u16) -> Remark
    ensures { result.items ≡ no_universe universe }
{
    let mut buffer = Buffer::new();
    join(&[
        b"--to names universe ",
        part(buffer.format(universe)),
        b": the show does not have it",
    ])
}

fn no_target(universe: u16) -> Remark
    ensures { result.items ≡ no_target universe }
{
    let mut buffer = Buffer::new();
    join(&[
        b"universe ",
        part(buffer.format(universe)),
        b" has no target: --to names none for it, and none for all",
    ])
}

fn target_twice(universe: u16, address: Address) -> Remark
    ensures { result.items ≡ target_twice universe address }
{
    let mut buffers = (Buffer::new(), Buffer::new());
    let host = host_text(address.host);
    join(&[
        b"universe ",
        part(buffers.0.format(universe)),
        b" has the target ",
        part(host.as_str()),
        b":",
        part(buffers.1.format(address.port)),
        b" twice",
    ])
}

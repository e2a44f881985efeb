ghost use Rattle.std.specs.Prelude.{◌≡◌, ◌++◌, codes, decimal};
ghost use Rattle.night_lines.specs.Targets as spec;

use crate::contents::count_text;
use arrayvec::ArrayString;
use itoa::Buffer;
use network_tables::host_text;
use targets::{Target, Targets, Universes};

/// The line of a target: its universes and its address have room.
pub type TargetLine = ArrayString<80>;

/// The only target, where it is for all universes.
pub fn sole_target(targets: &Targets) -> Option<Target>
    ensures { result ≡ spec.sole_target targets.now }
{
    match targets.as_slice() {
        [only] if only.universes.is_none() => Some(*only),
        _ => None,
    }
}

// Where the packets of a night go.
pub(crate) fn targets_text(targets: &Targets) -> ArrayString<37>
    ensures { result.bytes ≡ spec.targets_text targets.now }
{
    let mut text = ArrayString::new();
    text.push_str(" to ");
    match sole_target(targets) {
        Some(target) => text.push_str(address_text(&target).as_str()),
        None => text.push_str(count_text(targets.as_slice().len() as u64, "target").as_str()),
    }
    text
}

/// The line of a target, where there are several.
pub fn target_line(target: &Target) -> TargetLine
    ensures { result.bytes ≡ spec.target_line target.now }
{
    let mut line = TargetLine::new();
    line.push_str("target: ");
    line.push_str(range_text(target.universes).as_str());
    line.push_str(address_text(target).as_str());
    line.push_str("\n");
    line
}

fn range_text(universes: Option<Universes>) -> ArrayString<25>
    ensures { result.bytes ≡ spec.range_text universes }
{
    match universes {
        None => ArrayString::new(),
        Some(universes) if universes.first == universes.last => one_universe(universes.first),
        Some(universes) => several_universes(universes),
    }
}

fn one_universe(universe: u16) -> ArrayString<25>
    ensures { result.bytes ≡ codes "universe " ++ decimal universe ++ codes " to " }
{
    let mut text = ArrayString::new();
    text.push_str("universe ");
    text.push_str(Buffer::new().format(universe));
    text.push_str(" to ");
    text
}

fn several_universes(universes: Universes) -> ArrayString<25>
    ensures { result.bytes ≡ codes "universes " ++ decimal universes.first ++ codes "-"
        ++ decimal universes.last ++ codes " to " }
{
    let mut text = ArrayString::new();
    text.push_str("universes ");
    text.push_str(Buffer::new().format(universes.first));
    text.push_str("-");
    text.push_str(Buffer::new().format(universes.last));
    text.push_str(" to ");
    text
}

fn address_text(target: &Target) -> ArrayString<33>
    ensures { result.bytes ≡ spec.address_text target.now }
{
    let mut text = ArrayString::new();
    text.push_str(host_text(target.address.host).as_str());
    text.push_str(":");
    text.push_str(Buffer::new().format(target.address.port));
    if target.is_groups() {
        text.push_str(" (multicast)");
    }
    text
}

ghost use Rattle.std.specs.Prelude.{◌≡◌, ◌≤◌, length};
ghost use Rattle.night_lines.specs.Notices as spec;

use crate::clock::clock_text;
use arrayvec::ArrayString;
use link_notices::{CardAddress, SourceNotice, SourceState};
use network_tables::host_text;

/// The line of a notice: a moment, and 120 bytes of what is told have room.
pub type NoticeLine = ArrayString<156>;

type StateText = ArrayString<80>;

/// The line of a notice about an address that packets come from, at a moment in milliseconds.
pub fn source_notice_line(moment: u64, source: &CardAddress, notice: SourceNotice) -> NoticeLine
    ensures { result.bytes ≡ spec.source_notice_line moment source.now notice }
{
    line_at(moment, state_text(source, notice.was, notice.is).as_str())
}

// The line of what is told at a moment.
pub(crate) fn line_at(moment: u64, text: &str) -> NoticeLine
    requires { length text.now ≤ 120 }
    ensures { result.bytes ≡ spec.line_at moment text.now }
{
    let mut line = NoticeLine::new();
    line.push_str(clock_text(moment).as_str());
    line.push_str(" ");
    line.push_str(text);
    line.push_str("\n");
    line
}

fn state_text(source: &CardAddress, was: SourceState, is: SourceState) -> StateText
    ensures { result.bytes ≡ spec.state_text source.now was is }
{
    match is {
        SourceState::NoLink => no_link_text(source.card.as_str()),
        SourceState::Down => down_text(source.card.as_str()),
        SourceState::Lost => lost_text(source),
        SourceState::Sends => recovery_text(source, was),
    }
}

fn no_link_text(card: &str) -> StateText
    requires { length card.now ≤ 15 }
    ensures { result.bytes ≡ spec.no_link_text card.now }
{
    let mut text = StateText::new();
    text.push_str("no link ");
    text.push_str(card);
    text.push_str(": nodes get nothing; check the cable");
    text
}

fn down_text(card: &str) -> StateText
    requires { length card.now ≤ 15 }
    ensures { result.bytes ≡ spec.down_text card.now }
{
    let mut text = StateText::new();
    text.push_str(card);
    text.push_str(" is down: nodes get nothing; ip link set ");
    text.push_str(card);
    text.push_str(" up");
    text
}

fn lost_text(source: &CardAddress) -> StateText
    ensures { result.bytes ≡ spec.lost_text source.now }
{
    let mut text = StateText::new();
    text.push_str(source.card.as_str());
    text.push_str(" has lost ");
    text.push_str(host_text(source.address).as_str());
    text.push_str(": nodes get nothing");
    text
}

fn recovery_text(source: &CardAddress, was: SourceState) -> StateText
    ensures { result.bytes ≡ spec.recovery_text source.now was }
{
    let mut text = StateText::new();
    match was {
        SourceState::Lost => {
            text.push_str(source.card.as_str());
            text.push_str(" has ");
            text.push_str(host_text(source.address).as_str());
        }
        _ => {
            text.push_str("link ");
            text.push_str(source.card.as_str());
        }
    }
    text
}

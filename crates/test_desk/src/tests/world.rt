ghost use Rattle.std.specs.List.{list_all};
ghost use Rattle.std.specs.Prelude.{◌≡◌};
ghost use Rattle.wire_world.specs.Refusing.{are_within as are_within_size};
ghost use Rattle.wire_world.specs.Refusing.{stray_fits as is_within_size};
ghost use Rattle.wire_world.specs.Widened.{happenings, occurrence};

use super::are_printed;
use super::shows::{Part, TWO_CUES, show_with};
use desk_core::{Command, Instruction, Refused, Ticked};
use fade_core::PlainFader;
use sacn_packet::{SourceName, Unreadable};
use sacn_receiver::Ignored;
use sacn_source::{Identity, Offered};
use show_core::{BuildFault, Show};
use std::alloc::{AllocError, Global};
use std::process::Abort;
use std::test::Fail;
use wire_world::{
    Event, Fault, Happening, Occurrence, Offers, Reply, Report, Setup, Skip, What, laws, rehearse,
    rehearse_compactly,
};

// Two cues; submaster 1 has channel 1 at half, and dimmers 1 and 2 are patched to channels 1 and 2
// at full.
fn small_show(alloc: Global) -> Result<Show, BuildFault> {
    let rest = [
        Part::Sub(1, 1, 128),
        Part::Patch(1, 1, 255),
        Part::Patch(2, 2, 255),
    ];
    show_with(alloc, TWO_CUES, &rest)
}

// A console of the first show with base 1.
fn console(rt: &impl Abort) -> Setup {
    let cid = *b"\xc0\xff\xee\0\0\0\x40\0\x80\0\0\0\0\0\xe1\x31";
    let name = SourceName::new("cueplayer").expect(rt, "a name");
    Setup {
        show: 0,
        base: 1,
        identity: Identity::new(cid, name, 100).expect(rt, "a priority"),
    }
}

// What is told of an event.
#[derive(Clone, Copy)]
enum Told {
    Done,
    Refused(Refused),
    Live(u8),
    Taken(u8),
    Ignored(Ignored),
    // Slot 1; the others are 0.
    Shown(u8),
    Skipped(Skip),
}

fn shows(slots: &[u8; 512], first: u8) -> bool {
    let mut wanted = [0; 512];
    wanted[0] = first;
    *slots == wanted
}

// Whether a packet of universe 1 was sent, with this number, and nothing else was offered.
fn has_sent(offers: &Offers, number: u8) -> bool {
    offers.pairs() == [(1, Offered::Sent(number))].as_slice()
}

fn is_told(reply: &Reply, told: Told) -> bool {
    match (reply, told) {
        (Reply::Done, Told::Done) => true,
        (Reply::Refused(refused), Told::Refused(wanted)) => *refused == wanted,
        (Reply::Ticked(Ticked::Live, offers), Told::Live(number)) => has_sent(offers, number),
        (Reply::Taken(taken), Told::Taken(number)) => {
            taken.sequence == number && !taken.terminated
        }
        (Reply::Ignored(ignored), Told::Ignored(wanted)) => *ignored == wanted,
        (Reply::Shown(slots), Told::Shown(first)) => shows(slots, first),
        (Reply::Skipped(skip), Told::Skipped(wanted)) => *skip == wanted,
        _ => false,
    }
}

fn is_within(event: &Event, size: usize) -> bool
    ensures { result ≡ is_within_size size (occurrence event.now.what) }
{
    match event.what {
        What::Stray { from, to, .. } => from <= to && to as usize <= size,
        _ => true,
    }
}

fn are_within(events: &[Event], size: usize) -> bool
    ensures { result ≡ are_within_size size (happenings events.now) }
{
    all_fit(events, size)
}

fn all_fit(events: &[Event], size: usize) -> bool
    ensures { result ≡ list_all (λ event. is_within_size size (occurrence event.what)) events.now }
{
    events.iter().all(|event| is_within(event, size))
}

// A rehearsal with one console and one receiver, of universe 1.
fn rehearsed_by(
    rt: &impl Abort,
    alloc: Global,
    shows: &[Show],
    console: Setup,
    events: &[Event],
) -> Result<Report, Fault> {
    assert!(rt; are_within(events, 0));
    rehearse::<PlainFader>(alloc, shows, &[console], &[1], events, &[])
}

// Of a console of the first show.
fn rehearsal_of(
    rt: &impl Abort,
    alloc: Global,
    shows: &[Show],
    events: &[Event],
) -> Result<Report, Fault> {
    rehearsed_by(rt, alloc, shows, console(rt), events)
}

const GO: What = What::Order(0, Command::Go);

const TICK: What = What::Tick(0);

const FIRST: What = What::Deliver {
    receiver: 0,
    console: 0,
    universe: 1,
    k: 0,
};

const SECOND: What = What::Deliver {
    receiver: 0,
    console: 0,
    universe: 1,
    k: 1,
};

const THIRD: What = What::Deliver {
    receiver: 0,
    console: 0,
    universe: 1,
    k: 2,
};

const SHOW: What = What::Show(0);

// What happens, at its moment, and what is told of it.
type Step = (u64, What, Told);

fn events_of(alloc: Global, steps: &[Step]) -> Result<Vec<Event>, AllocError> {
    let mut events = Vec::new(alloc);
    for (moment, what, _) in steps {
        events.push(Event {
            moment: *moment,
            what: *what,
        })?;
    }
    Ok(events)
}

fn are_told(replies: &[Reply], steps: &[Step]) -> bool {
    if replies.len() != steps.len() {
        return false;
    }
    for (reply, step) in replies.iter().zip(steps) {
        if !is_told(reply, step.2) {
            return false;
        }
    }
    true
}

fn show_last(last: &[[u8; 512]], first: u8) -> bool {
    match last {
        [slots] => shows(slots, first),
        _ => false,
    }
}

// Whether the events are answered so, and slot 1 is so at the end.
fn is_told_of(report: &Report, steps: &[Step], last: u8) -> bool {
    are_told(report.replies.as_slice(), steps) && show_last(report.last.as_slice(), last)
}

// The report of these steps over the small show.
fn report_of(rt: &impl Abort, alloc: Global, steps: &[Step]) -> Result<Report, Fail> {
    let shows = [small_show(alloc)?];
    let events = events_of(alloc, steps)?;
    Ok(rehearsal_of(rt, alloc, &shows, events.as_slice())?)
}

const BASIC: &[Step] = &[
    (0, GO, Told::Done),
    (1000, TICK, Told::Live(0)),
    (1000, FIRST, Told::Taken(0)),
    (2000, TICK, Told::Live(1)),
    (2000, SHOW, Told::Shown(51)),
    (2010, SECOND, Told::Taken(1)),
    (2010, SHOW, Told::Shown(102)),
    (2011, SECOND, Told::Ignored(Ignored::OutOfSequence)),
    (2022, TICK, Told::Refused(Refused::TooSoon)),
    (2030, GO, Told::Done),
    (2030, GO, Told::Refused(Refused::AtEnd)),
    (2031, THIRD, Told::Skipped(Skip::NotSent)),
];

#[test]
fn rehearse_basic(rt: HostRuntime) -> Result<(), Fail> {
    let report = report_of(&rt, rt.alloc(), BASIC)?;
    assert!(rt; is_told_of(&report, BASIC, 102));
    Ok(())
}

const fn happening(what: Occurrence) -> Happening
    ensures { result ≡ record { moment = 7; what = what } }
{
    Happening { moment: 7, what }
}

// A script has what an `Event` has not: cue 1 over no time, in place of its five seconds.
#[test]
fn rehearse_goto_in(rt: HostRuntime) -> Result<(), Fail> {
    let shows = [small_show(rt.alloc())?];
    let consoles = [console(&rt)];
    let goto_in = Instruction::GotoIn { cue: 1000, time: 0 };
    let first = Occurrence::Deliver {
        receiver: 0,
        console: 0,
        universe: 1,
        k: 0,
    };
    let events = [
        happening(Occurrence::Order(0, goto_in)),
        happening(Occurrence::Tick(0)),
        happening(first),
    ];
    let (alloc, receivers) = (rt.alloc(), [1]);
    let report = rehearse_compactly::<PlainFader>(
        alloc,
        &shows,
        &consoles,
        &receivers,
        &events,
        &[],
    )?;
    assert!(rt; show_last(report.last.as_slice(), 255));
    Ok(())
}

// The small show, also where an allocation for it fails.
fn show_at_last(alloc: Global) -> Result<Show, BuildFault> {
    match small_show(alloc) {
        Err(_) => small_show(alloc),
        answer => answer,
    }
}

const SHORT: &[Event] = &[
    Event {
        moment: 0,
        what: TICK,
    },
    Event {
        moment: 0,
        what: SHOW,
    },
];

// How many replies a short rehearsal has, and how many receivers at the end, also where an
// allocation is refused.
fn sizes_at_last(rt: &impl Abort, alloc: Global) -> Result<(usize, usize), Fail> {
    let shows = [show_at_last(alloc)?];
    let answer = match rehearsal_of(rt, alloc, &shows, SHORT) {
        Err(Fault::Memory) => rehearsal_of(rt, alloc, &shows, SHORT),
        answer => answer,
    };
    let report = answer?;
    Ok((report.replies.len(), report.last.len()))
}

// It passes whichever allocation fails.
#[test]
fn each_growth_refused(rt: HostRuntime) -> Result<(), Fail> {
    assert!(rt; sizes_at_last(&rt, rt.alloc())? == (2, 1));
    Ok(())
}

// Submaster 1 moves at each of 420 ticks, by whole percentages.
fn push_moves(events: &mut Vec<Event>) -> Result<(), AllocError> {
    for i in 0..420u64 {
        let byte = ((i % 90 * 255 + 50) / 100) as u8;
        let moves = What::Order(0, Command::Sub(1, byte));
        for what in [moves, TICK] {
            events.push(Event {
                moment: 25 * i,
                what,
            })?;
        }
    }
    Ok(())
}

// Twenty packets come, the newest first, and then the slots are asked for.
fn push_group(events: &mut Vec<Event>, newest: u64) -> Result<(), AllocError> {
    for behind in 0..20u64 {
        let what = What::Deliver {
            receiver: 0,
            console: 0,
            universe: 1,
            k: newest.saturating_sub(behind),
        };
        events.push(Event {
            moment: 10_475,
            what,
        })?;
    }
    events.push(Event {
        moment: 10_475,
        what: SHOW,
    })?;
    Ok(())
}

// The newest packet of a group is taken, the others come too late, and slot 1 is so.
fn is_group(replies: &[Reply], number: u8, first: u8) -> bool {
    let Some((newest, older)) = replies.split_first() else {
        return false;
    };
    let Some((shown, late)) = older.split_last() else {
        return false;
    };
    is_told(newest, Told::Taken(number))
        && late.iter().all(|reply| is_told(reply, Told::Ignored(Ignored::OutOfSequence)))
        && is_told(shown, Told::Shown(first))
}

// Of each group the newest packet, its sequence number, and slot 1.
const GROUPS: [(u64, u8, u8); 3] = [(19, 19, 24), (219, 219, 50), (419, 163, 75)];

fn wrap_events(alloc: Global) -> Result<Vec<Event>, AllocError> {
    let mut events = Vec::new(alloc);
    push_moves(&mut events)?;
    for (newest, _, _) in GROUPS {
        push_group(&mut events, newest)?;
    }
    Ok(events)
}

#[test]
fn window_wrap(rt: HostRuntime) -> Result<(), Fail> {
    let shows = [small_show(rt.alloc())?];
    let events = wrap_events(rt.alloc())?;
    let report = rehearsal_of(&rt, rt.alloc(), &shows, events.as_slice())?;
    let replies = report.replies.as_slice();
    assert!(rt; replies.len() == 903);
    for (place, (_, number, first)) in GROUPS.iter().enumerate() {
        let group = &replies[840 + 21 * place..861 + 21 * place];
        assert!(rt; is_group(group, *number, *first), "{number}");
    }
    Ok(())
}

// A setup names the second of one show.
#[test]
fn show_not_there(rt: HostRuntime) -> Result<(), Fail> {
    let shows = [show_at_last(rt.alloc())?];
    let mut other = console(&rt);
    other.show = 1;
    let answer = rehearsed_by(&rt, rt.alloc(), &shows, other, SHORT);
    assert!(rt; matches!(answer, Err(Fault::NoShow)));
    Ok(())
}

#[test]
fn skips_in_words(rt: HostRuntime) -> Result<(), Fail> {
    let rows = [
        (
            Skip::Backwards,
            "it is before the last event that was not skipped",
        ),
        (Skip::TooLarge, "its moment is 2^48 milliseconds or more"),
        (Skip::NoConsole, "there is no such console"),
        (Skip::NoReceiver, "there is no such receiver"),
        (Skip::NotSent, "the packet was not sent yet"),
    ];
    assert!(rt; are_printed(rt.alloc(), &rows)?);
    Ok(())
}

#[test]
fn faults_in_words(rt: HostRuntime) -> Result<(), Fail> {
    let rows = [
        (Fault::Consoles, "a rehearsal has one to four consoles"),
        (
            Fault::Receivers,
            "a rehearsal has at most eight receivers, each of its own universe of 1 to 63999",
        ),
        (Fault::NoShow, "a console has no show"),
        (Fault::Universe, "a universe of a console is not 1 to 63999"),
        (Fault::Memory, "out of memory"),
    ];
    assert!(rt; are_printed(rt.alloc(), &rows)?);
    Ok(())
}

fn reply_is_printed(alloc: Global, reply: &Reply, words: &str) -> Result<bool, AllocError> {
    let told = format!(in alloc; "{reply:?}")?;
    Ok(told.as_str() == words)
}

#[test]
fn replies_in_words(rt: HostRuntime) -> Result<(), Fail> {
    let short = Ignored::Unreadable(Unreadable::Short);
    for (reply, words) in &[
        (Reply::Refused(Refused::TooSoon), "Refused(TooSoon)"),
        (Reply::Skipped(Skip::NotSent), "Skipped(NotSent)"),
        (Reply::Ignored(short), "Ignored(Unreadable(Short))"),
    ] {
        assert!(rt; reply_is_printed(rt.alloc(), reply, words)?, "{words}");
    }
    Ok(())
}

#[test]
fn every_law() {
    laws::headline();
    laws::window_law();
    laws::merge_law();
    laws::consoles_are_independent();
    laws::datagrams_are_packets();
}

ghost use Rattle.std.specs.Prelude.{◌≡◌, ◌≤◌, ◌<◌, ◌+◌, ◌++◌, [], length, map, option_map};
ghost use Rattle.std.specs.Prelude.{flat_map, None, Some};
ghost use Rattle.std.specs.Duration.{as_nanos};
ghost use Rattle.std.specs.List.{enumerate_from};
ghost use Rattle.link_notices.specs.Looks.{path_look};
ghost use Rattle.link_notices.specs.LookTimes.{due_time, is_look_due, look_time};
ghost use Rattle.link_notices.specs.Watches.{again_notices, look_notices};
ghost use Rattle.link_notices.specs.Watches.{path_again, path_news, path_notice, path_told};
ghost use Rattle.link_notices.specs.Watches.{path_watches, source_again, source_news};
ghost use Rattle.link_notices.specs.Watches.{source_notice, source_told, source_watch};
ghost use Rattle.link_notices.specs.Watches.{start_watch};

use crate::look::{HostPath, MOST_SOURCES, NetworkLook};
use crate::notice::{LinkNotice, LinkNotices, PathNotice, SourceNotice};
use crate::path::{PathState, Trouble, trouble_of};
use crate::watch::{PathWatch, SourceWatch};
use arrayvec::ArrayVec;
use std::time::Duration;
use targets::MOST_TARGETS;

// So many milliseconds pass between two looks.
const BETWEEN_LOOKS: u64 = 500;

type SourceWatches = ArrayVec<SourceWatch, MOST_SOURCES>;

type PathWatches = ArrayVec<PathWatch, MOST_TARGETS>;

/// Leave to take up a look: one is due.
#[derive(Clone, Copy, Debug)]
pub struct DueLook {
    // When it is made, in milliseconds.
    time: u64,
}

/// Watches the network of a night, and answers with what is to be told of it: so that an operator
/// knows when nodes get nothing.
#[derive(Drop)]
pub struct LinkWatch {
    /// When it was looked at last, in milliseconds.
    pub last: Option<u64>,
    /// What that found.
    pub found: NetworkLook,
    /// What was told of each address.
    pub sources: SourceWatches,
    /// What was told of each way.
    pub paths: PathWatches,
}

impl LinkWatch {
    /// A watch of a network that was like this at the start of the night. To which hosts there was
    /// no route is told already.
    pub fn new(start: NetworkLook) -> Self
        ensures last { result.last ≡ None }
        ensures found { result.found ≡ start }
        ensures sources { result.sources.items ≡ [] }
        ensures paths { result.paths.items ≡ map start_watch start.paths.items }
    {
        let paths = start_watches(&start);
        LinkWatch {
            last: None,
            found: start,
            sources: SourceWatches::new(),
            paths,
        }
    }

    /// Whether a look at the network is due at this time, in milliseconds: half a second has passed
    /// since the last one. `None` where it is not.
    pub fn due_look(&self, now: u64) -> Option<DueLook>
        ensures { option_map (λ due. due.time) result ≡ due_time self.now.last now }
    {
        if !is_look_due(self.last, now) {
            return None;
        }
        Some(DueLook { time: now })
    }

    /// Takes up what a look that was due found, and answers what is to be told then: of the
    /// addresses in their order, and then of the ways in theirs.
    pub fn take_look(&mut self, due: DueLook, found: NetworkLook) -> LinkNotices
        ensures notices { result.items
            ≡ look_notices self.old.sources.items self.old.paths.items found }
        ensures sources { self.new.sources.items ≡ map source_watch found.sources.items }
        ensures paths { self.new.paths.items ≡ path_watches self.old.paths.items found }
        ensures found { self.new.found ≡ found }
        ensures last { self.new.last ≡ Some due.time }
    {
        let mut notices = LinkNotices::new();
        let sources = look_at_sources(self.sources.as_slice(), &found, &mut notices);
        let paths = look_at_paths(self.paths.as_slice(), &found, &mut notices);
        self.last = Some(due.time);
        self.found = found;
        self.sources = sources;
        self.paths = paths;
        notices
    }

    /// What is told once more: what is wrong, of the addresses and the ways of the last look.
    pub fn again(&self) -> LinkNotices
        ensures { result.items ≡ again_notices self.now.sources.items self.now.paths.items
            self.now.found }
    {
        let mut notices = LinkNotices::new();
        sources_again(self.sources.as_slice(), &self.found, &mut notices);
        paths_again(self.paths.as_slice(), &self.found, &mut notices);
        notices
    }
}

/// The time of a look, in milliseconds, by what a clock shows; `None` where that does not fit.
pub fn look_time(passed: Duration) -> Option<u64>
    ensures { result ≡ look_time (as_nanos passed) }
{
    u64::try_from(passed.as_millis()).ok()
}

fn is_look_due(last: Option<u64>, now: u64) -> bool
    ensures { result ≡ is_look_due last now }
{
    match last {
        Some(last) => now.saturating_sub(last) >= BETWEEN_LOOKS,
        None => true,
    }
}

fn start_watches(start: &NetworkLook) -> PathWatches
    ensures { result.items ≡ map start_watch start.now.paths.items }
{
    let mut watches = PathWatches::new();
    for path in start.paths.as_slice() {
        watches.push(start_watch(path));
    }
    watches
}

fn start_watch(path: &HostPath) -> PathWatch
    ensures { result ≡ start_watch path.now }
{
    let told = match path.state {
        PathState::Nowhere => trouble_of(&path.state, path.source.is_some(), 0),
        _ => Trouble::None,
    };
    PathWatch { told }
}

fn source_at(watches: &[SourceWatch], place: usize) -> SourceWatch
    ensures { result.told ≡ source_told watches.now place }
{
    watches.get(place).copied().unwrap_or_default()
}

fn path_at(watches: &[PathWatch], place: usize) -> PathWatch
    ensures { result.told ≡ path_told watches.now place }
{
    watches.get(place).copied().unwrap_or_default()
}

fn push_source(notices: &mut LinkNotices, place: usize, notice: Option<SourceNotice>)
    requires { length notices.old.items < 72 }
    ensures notices { notices.new.items ≡ notices.old.items ++ source_notice place notice }
    ensures room { length notices.new.items ≤ length notices.old.items + 1 }
{
    if let Some(notice) = notice {
        notices.push(LinkNotice::Source { place, notice });
    }
}

fn push_path(notices: &mut LinkNotices, place: usize, notice: Option<PathNotice>)
    requires { length notices.old.items < 72 }
    ensures notices { notices.new.items ≡ notices.old.items ++ path_notice place notice }
    ensures room { length notices.new.items ≤ length notices.old.items + 1 }
{
    if let Some(notice) = notice {
        notices.push(LinkNotice::Path { place, notice });
    }
}

// Takes up how each address is, and adds what is to be told of it.
fn look_at_sources(
    watches: &[SourceWatch],
    look: &NetworkLook,
    notices: &mut LinkNotices,
) -> SourceWatches
    requires { notices.old.items ≡ [] }
    ensures notices { notices.new.items
        ≡ flat_map (source_news watches.now) (enumerate_from 0 look.now.sources.items) }
    ensures room { length notices.new.items ≤ 8 }
    ensures told { result.items ≡ map source_watch look.now.sources.items }
{
    let mut after = SourceWatches::new();
    for (place, is) in look.sources.as_slice().iter().enumerate() {
        let mut watch = source_at(watches, place);
        let notice = watch.look(*is);
        push_source(notices, place, notice);
        after.push(watch);
    }
    after
}

// Takes up how the way to each host is, and adds what is to be told of it.
fn look_at_paths(
    watches: &[PathWatch],
    look: &NetworkLook,
    notices: &mut LinkNotices,
) -> PathWatches
    requires { length notices.old.items ≤ 8 }
    ensures notices { notices.new.items ≡ notices.old.items ++ flat_map
        (path_news look.now.sources.items watches.now) (enumerate_from 0 look.now.paths.items) }
    ensures told { result.items ≡ path_watches watches.now look.now }
{
    let mut after = PathWatches::new();
    for (place, path) in look.paths.as_slice().iter().enumerate() {
        let mut watch = path_at(watches, place);
        let notice = watch.look(look.path_look(path));
        push_path(notices, place, notice);
        after.push(watch);
    }
    after
}

// Adds what is told again of each address.
fn sources_again(watches: &[SourceWatch], look: &NetworkLook, notices: &mut LinkNotices)
    requires { notices.old.items ≡ [] }
    ensures notices { notices.new.items
        ≡ flat_map (source_again watches.now) (enumerate_from 0 look.now.sources.items) }
    ensures room { length notices.new.items ≤ 8 }
{
    for (place, _) in look.sources.as_slice().iter().enumerate() {
        let notice = source_at(watches, place).again();
        push_source(notices, place, notice);
    }
}

// Adds what is told again of the way to each host.
fn paths_again(watches: &[PathWatch], look: &NetworkLook, notices: &mut LinkNotices)
    requires { length notices.old.items ≤ 8 }
    ensures { notices.new.items ≡ notices.old.items ++ flat_map
        (path_again look.now.sources.items watches.now) (enumerate_from 0 look.now.paths.items) }
{
    for (place, path) in look.paths.as_slice().iter().enumerate() {
        let notice = path_at(watches, place).again(look.has_link(path));
        push_path(notices, place, notice);
    }
}

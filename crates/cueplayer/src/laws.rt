//! From the lines of a play to the light on the stage: what holds of every play, every network and
//! every receiver. Each law is the contract of a function that does nothing: call it where its fact
//! is wanted.
//!
//! A *play* (`IsPlay`) is a production, lines that were carried out, and what the link was offered
//! at them: whatever `play` did, and so whatever a live night did. *Traffic* is everything that
//! arrived at a receiver of one universe, each datagram at its moment on the receiver's clock. The
//! receiver hears one play alone (`HearsOne`) where each datagram is a send of the play for that
//! universe, or is not heard on it; moments never fall; and the sends that arrived are in the
//! window: each is at most 19 behind and 217 ahead of the newest that arrived before it. So a
//! network may lose, repeat, reorder and delay, and strangers may send whatever this universe does
//! not hear. A play is fresh (`IsFresh`) where its newest send has arrived, and first did so less
//! than 2,500 ms ago.
//!
//! Outside the laws: that anything arrives; what is shown outside the window, or while a stranger
//! is heard; and that sockets, cables and nodes carry what they are handed.

ghost use Rattle.cueplayer.specs.Addresses.{AddressesGetTheStream, NightsAreAddressed};
ghost use Rattle.cueplayer.specs.Addresses.{PlaysAreAddressed};
ghost use Rattle.cueplayer.specs.Laws.{Headline, MergeLaw, SendsAreAddressed, SendsAreTheStream};
ghost use Rattle.cueplayer.specs.Laws.{SendsStay, SilenceIsDark, UnpatchedSlotsAreZero};
ghost use Rattle.cueplayer.specs.Laws.{WindowLaw};
ghost use Rattle.cueplayer.specs.OldShows.{OldShowsLaw};
ghost use Rattle.cueplayer.specs.Restarts.{BreaksArePlays, MeansOne, PlaysGoOn, RestartHeadline};
ghost use Rattle.cueplayer.specs.Restarts.{RecordsAreTakenUp, TakesOver};
ghost use Rattle.cueplayer.specs.Programs.{DryRunsArePlays, ListenLaw, NightsArePlays};
ghost use Rattle.cueplayer.specs.Programs.{NightHeadline, NightsAreTyped, PlaysArePlays};
ghost use Rattle.cueplayer.specs.Programs.{PlayToListen, RunsArePlays};

use devices::Feed;

/// The lines that `play` carries out, and what its link is offered at them, are a play, also where
/// the output fails at the last of them.
#[tactic(auto, using(crate::proofs::Playing::runs_plays))]
pub fn runs_are_plays()
    ensures run { RunsArePlays }
    ensures dry { DryRunsArePlays }
{}

/// So is whatever `play` does once it took its input, however it ends, where its devices tell.
#[tactic(auto, using(crate::proofs::Playing::plays_plays))]
pub fn plays_are_plays<R: Feed>(_input: &R)
    ensures { PlaysArePlays (R.ended _input.now) }
{}

/// And so is a live night, where its booth and its link tell: whatever was typed, whatever the
/// clock said and however it ended, the lines that its input gave are a play, behind the lines of
/// its record where it went on behind one (`plays`). Its history is that of the commands that were
/// typed, of the ticks, and of the end of the night (`typed`); so the promise holds of a live
/// night, under the commands that were typed (`headline`).
pub fn nights_are_plays()
    ensures plays { NightsArePlays }
    ensures typed { NightsAreTyped }
    ensures headline { NightHeadline }
{}

/// A night that was killed, and one that went on behind its record, are one play. The second takes
/// up the history (`play_history`); of what was due when the first broke off at most one packet for
/// each universe was never sent, and what the second sends comes next in the same streams
/// (`stream`); so the promise holds across the restart (`headline`).
pub fn nights_go_on()
    ensures history { PlaysGoOn }
    ensures stream { BreaksArePlays }
    ensures headline { RestartHeadline }
{}

/// Where the lines of a text are the first that a live night gave, `take_up` takes up each of them,
/// wherever the text ends. So `--resume` and a backup refuse no line that `live` wrote.
pub fn records_are_taken_up()
    ensures { RecordsAreTakenUp }
{}

/// Where all consoles that light a receiver mean the same, whatever their priorities, it shows that
/// (`one`); so where one takes over that has carried out the same, the slots stay (`over`).
pub fn consoles_take_over()
    ensures one { MeansOne }
    ensures over { TakesOver }
{}

/// What a play's link is offered for a universe is the stream of that universe, packet by packet;
/// and it is heard on no other universe.
#[tactic(auto, using(crate::proofs::Sends::sends_stream))]
pub fn sends_are_the_stream()
    ensures stream { SendsAreTheStream }
    ensures addressed { SendsAreAddressed }
{}

/// Over a link to targets the sends of a play go to all addresses of their universes, in order, and
/// to no other; so each address of a universe is sent the stream of that universe (`streams`),
/// whatever `play` did (`plays`) and whatever a live night did (`nights`), and whatever failed.
pub fn addresses_get_the_stream<R: Feed>(_input: &R)
    ensures streams { AddressesGetTheStream }
    ensures plays { PlaysAreAddressed (R.ended _input.now) }
    ensures nights { NightsAreAddressed }
{}

/// The promise: a receiver that hears one play alone, and to which that play is fresh, shows what
/// its show means at the latest tick, under the commands before that tick. A slot without a patched
/// channel is 0.
#[tactic(auto, using(crate::proofs::Showing::headline))]
pub fn headline()
    ensures means { Headline }
    ensures unpatched { UnpatchedSlotsAreZero }
{}

/// Fresh or not: a receiver that hears one play alone shows one packet of it that arrived less than
/// 2,500 ms ago, the newest that arrived or up to 19 behind it, or all slots are 0; and they are 0
/// where none arrived less than 2,500 ms ago.
#[tactic(auto, using(crate::proofs::Showing::window_law, crate::proofs::Showing::silence_dark))]
pub fn window_law()
    ensures near { WindowLaw }
    ensures silence { SilenceIsDark }
{}

/// A receiver that hears up to four plays with CIDs of their own (`HearsAll`), each of them fresh
/// or silent, shows in each slot the greatest level that those of the greatest priority mean. A
/// play that is silent, or that has ticked after `end`, counts for nothing.
#[tactic(auto, using(crate::proofs::Showing::merge_law))]
pub fn merge_law()
    ensures { MergeLaw }
{}

/// A `listen` that hears one play alone, and has received its newest send, prints the slots that
/// the show means at the latest tick: of the definitions (`text`), and of what the contracts of
/// `play` and `listen` say (`programs`).
pub fn listen_law()
    ensures text { ListenLaw }
    ensures programs { PlayToListen }
{}

/// What arrived of a play's sends so far arrived of its sends later on. So the laws speak of each
/// moment of a play, and not of its end alone.
#[tactic(auto, using(crate::proofs::Showing::sends_stay))]
pub fn sends_stay()
    ensures { SendsStay }
{}

/// A show of a desk with 2,048 channels and 4,096 dimmers means the same here: at each tick the
/// same frames, and the same universes.
#[tactic(auto, using(crate::proofs::OldShows::old_shows))]
pub fn old_shows_mean_the_same()
    ensures { OldShowsLaw }
{}

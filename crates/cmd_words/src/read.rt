ghost use Rattle.std.specs.Prelude.{◌≡◌, ◌≤◌, map, option_and_then, codes, IfOk, IfErr, IfSome};
ghost use Rattle.std.specs.Prelude.{true, is_some};
ghost use Rattle.clap.specs.Words.{first_of, found_of, rows_of, subcommand_rows_of};
ghost use Rattle.cmd_words.specs.Program.{live_arguments, listen_arguments, night_arguments};
ghost use Rattle.cmd_words.specs.Program.{rules_of};
ghost use Rattle.cmd_words.specs.Job.{IsJobInRange, job_of_line, check_of, explain_of, cues_of};
ghost use Rattle.cmd_words.specs.Job.{look_of, slots_of, night_of, play_of};
ghost use Rattle.cmd_words.specs.Job.{live_of, rehearse_of, listen_of, watch_job};
ghost use Rattle.cmd_words.specs.Misfit.{IsWhole, NightFits, first_misfit, has_texts};
ghost use Rattle.cmd_words.specs.Misfit.{misfit_in};
ghost use Rattle.cmd_words.specs.Asked.{AnswersWords, ExplainsUnread, ExplainsWords, IsAsked, RefusedBy};

use crate::arguments::{
    address_at, any_route_at, base_at, cid_at, count_at, cue_at, follows_at, has_flag, name_at,
    name_of, patience_at, priority_at, resumes_at, source_name_at, spare_at, start_at, targets_at,
    text_at, ttl_at, universe_at, universes_at,
};
use crate::fault::{Unread, WordsFault};
use crate::job::{Job, LiveOptions, Name, Night};
use crate::program::program;
use clap::error::ErrorKind;
use clap::{ArgMatches, Error};
use std::alloc::{AllocError, Global};
use std::convert::AsStr;

/// Reads the words of the command line, the program's name first.
///
/// The first that applies is answered: Refused where no line of the program takes the words, Unfit
/// where an argument lacks its form, and else the job. Memory comes in place of any of them if an
/// allocation failed.
pub fn read_words<S: AsStr>(alloc: Global, words: &[S]) -> Result<Job, WordsFault>
    ensures ok { IfOk result (IsAsked (map S.text words.now)) }
    ensures ranges { IfOk result IsJobInRange }
    ensures err { IfErr result (ExplainsWords (map S.text words.now)) }
{
    Ok(read_or_explain(alloc, words)?)
}

/// Reads the words as [`read_words`] does, and says which argument is unfit.
///
/// # Errors
///
/// As [`read_words`].
pub fn read_or_explain<'a, S: AsStr>(alloc: Global, words: &'a [S]) -> Result<Job, Unread<'a>>
    ensures ok { IfOk result (IsAsked (map S.text words.now)) }
    ensures ranges { IfOk result IsJobInRange }
    ensures err { IfErr result (ExplainsUnread (map S.text words.now)) }
{
    let Ok(program) = program(alloc) else {
        return Err(Unread::Memory);
    };
    let matches = match program.try_get_matches_from(words) {
        Ok(matches) => matches,
        Err(error) => return Err(refusal(error)),
    };
    let (line, inner) = matches.subcommand().unwrap();
    read_line(alloc, line, inner)
}

fn refusal(error: Error) -> Unread<'static>
    ensures { RefusedBy error result }
{
    if error.kind() == ErrorKind::OutOfMemory {
        Unread::Memory
    } else {
        Unread::Refused(error)
    }
}

// The job of the line of this name, where each of its texts has its form.
fn read_line<'a>(alloc: Global, line: &str, matches: &ArgMatches<'a>) -> Result<Job, Unread<'a>>
    requires { IsWhole (line.now, rows_of (found_of matches.now)) }
    ensures { AnswersWords IsJobInRange (job_of_line (line.now, rows_of (found_of matches.now)))
        (misfit_in (line.now, rows_of (found_of matches.now))) result }
{
    if line == "check" {
        read_check(alloc, matches)
    } else if line == "explain" {
        read_explain(alloc, matches)
    } else if line == "cues" {
        read_cues(alloc, matches)
    } else if line == "look" {
        read_look(alloc, matches)
    } else if line == "slots" {
        read_slots(alloc, matches)
    } else if line == "play" {
        read_play(alloc, matches)
    } else if line == "live" {
        read_live(alloc, matches)
    } else if line == "rehearse" {
        read_rehearse(alloc, matches)
    } else if line == "watch" {
        read_watch(matches)
    } else {
        read_listen(matches)
    }
}

fn read_check<'a>(alloc: Global, matches: &ArgMatches<'a>) -> Result<Job, Unread<'a>>
    requires { has_texts (rules_of (codes "check")) (rows_of (found_of matches.now)) ≡ true }
    ensures { AnswersWords IsJobInRange (check_of (rows_of (found_of matches.now)))
        (misfit_in (codes "check", rows_of (found_of matches.now))) result }
{
    let show = Name::new(alloc, text_at(matches, "SHOW"))?;
    if has_flag(matches, "strict") {
        Ok(Job::CheckStrictly { show })
    } else {
        Ok(Job::Check { show })
    }
}

fn read_explain<'a>(alloc: Global, matches: &ArgMatches<'a>) -> Result<Job, Unread<'a>>
    requires { has_texts (rules_of (codes "explain")) (rows_of (found_of matches.now)) ≡ true }
    ensures { AnswersWords IsJobInRange (explain_of (rows_of (found_of matches.now)))
        (misfit_in (codes "explain", rows_of (found_of matches.now))) result }
{
    let show = Name::new(alloc, text_at(matches, "SHOW"))?;
    Ok(Job::Explain { show })
}

fn read_cues<'a>(alloc: Global, matches: &ArgMatches<'a>) -> Result<Job, Unread<'a>>
    requires { has_texts (rules_of (codes "cues")) (rows_of (found_of matches.now)) ≡ true }
    ensures { AnswersWords IsJobInRange (cues_of (rows_of (found_of matches.now)))
        (misfit_in (codes "cues", rows_of (found_of matches.now))) result }
{
    let show = Name::new(alloc, text_at(matches, "SHOW"))?;
    Ok(Job::Cues {
        show,
        is_json: has_flag(matches, "json"),
    })
}

fn read_look<'a>(alloc: Global, matches: &ArgMatches<'a>) -> Result<Job, Unread<'a>>
    requires { has_texts (rules_of (codes "look")) (rows_of (found_of matches.now)) ≡ true }
    ensures { AnswersWords IsJobInRange (look_of (rows_of (found_of matches.now)))
        (misfit_in (codes "look", rows_of (found_of matches.now))) result }
{
    let cue = cue_at(matches)?;
    let cid = cid_at(matches)?;
    let show = Name::new(alloc, text_at(matches, "SHOW"))?;
    Ok(Job::Look { show, cue, cid })
}

fn read_slots<'a>(alloc: Global, matches: &ArgMatches<'a>) -> Result<Job, Unread<'a>>
    requires { has_texts (rules_of (codes "slots")) (rows_of (found_of matches.now)) ≡ true }
    ensures { AnswersWords IsJobInRange (slots_of (rows_of (found_of matches.now)))
        (misfit_in (codes "slots", rows_of (found_of matches.now))) result }
{
    let cue = cue_at(matches)?;
    let base = base_at(matches)?;
    let show = Name::new(alloc, text_at(matches, "SHOW"))?;
    Ok(Job::Slots { show, cue, base })
}

fn read_play<'a>(alloc: Global, matches: &ArgMatches<'a>) -> Result<Job, Unread<'a>>
    requires { has_texts (rules_of (codes "play")) (rows_of (found_of matches.now)) ≡ true }
    ensures { AnswersWords IsJobInRange (play_of (rows_of (found_of matches.now)))
        (misfit_in (codes "play", rows_of (found_of matches.now))) result }
{
    let night = read_night(alloc, matches)?;
    Ok(night.into_play())
}

fn read_live<'a>(alloc: Global, matches: &ArgMatches<'a>) -> Result<Job, Unread<'a>>
    requires { has_texts (rules_of (codes "live")) (rows_of (found_of matches.now)) ≡ true }
    ensures { AnswersWords IsJobInRange (live_of (rows_of (found_of matches.now)))
        (misfit_in (codes "live", rows_of (found_of matches.now))) result }
{
    match read_night(alloc, matches) {
        Ok(night) => read_live_night(alloc, matches, night),
        Err(fault) => Err(fault),
    }
}

// The job of `live`, where its night was read.
fn read_live_night<'a>(
    alloc: Global,
    matches: &ArgMatches<'a>,
    night: Night,
) -> Result<Job, Unread<'a>>
    requires asked { night_of (rows_of (found_of matches.now)) ≡ Some night }
    requires range { night.priority ≤ 200 }
    requires fits { NightFits (rows_of (found_of matches.now)) }
    ensures { AnswersWords IsJobInRange (live_of (rows_of (found_of matches.now)))
        (misfit_in (codes "live", rows_of (found_of matches.now))) result }
{
    let resumes = resumes_at(matches)?;
    let is_spare = spare_at(matches)?;
    let start = start_at(matches)?;
    let _follows = follows_at(matches)?;
    let patience = patience_at(matches)?;
    let record_file = name_at(alloc, matches, "record")?;
    let main_file = name_at(alloc, matches, "follow")?;
    let options = LiveOptions {
        record_file,
        resumes,
        is_spare,
        start,
        main_file,
        patience,
        ends_with_input: has_flag(matches, "end-with-input"),
    };
    Ok(Job::Live { night, options })
}

// The night of a line that plays, where each of its texts has its form.
fn read_night<'a>(alloc: Global, matches: &ArgMatches<'a>) -> Result<Night, Unread<'a>>
    requires { has_texts night_arguments (rows_of (found_of matches.now)) ≡ true }
    ensures night { AnswersWords (λ night. night.priority ≤ 200)
        (night_of (rows_of (found_of matches.now)))
        (first_misfit night_arguments (rows_of (found_of matches.now))) result }
    ensures fits { IfOk result (λ _. NightFits (rows_of (found_of matches.now))) }
{
    let targets = targets_at(matches)?;
    let cid = cid_at(matches)?;
    let priority = priority_at(matches)?;
    let base = base_at(matches)?;
    let any_route = any_route_at(matches)?;
    let source_name = source_name_at(matches)?;
    let ttl = ttl_at(matches)?;
    let show = Name::new(alloc, text_at(matches, "SHOW"))?;
    let interface = name_at(alloc, matches, "interface")?;
    let name = name_of(alloc, source_name)?;
    Ok(Night {
        show,
        targets,
        cid,
        priority,
        base,
        interface,
        any_route,
        name,
        ttl,
    })
}

fn read_rehearse<'a>(alloc: Global, matches: &ArgMatches<'a>) -> Result<Job, Unread<'a>>
    requires { has_texts (rules_of (codes "rehearse")) (rows_of (found_of matches.now)) ≡ true }
    ensures { AnswersWords IsJobInRange (rehearse_of (rows_of (found_of matches.now)))
        (misfit_in (codes "rehearse", rows_of (found_of matches.now))) result }
{
    let show = Name::new(alloc, text_at(matches, "SHOW"))?;
    let script = Name::new(alloc, text_at(matches, "SCRIPT"))?;
    Ok(Job::Rehearse { show, script })
}

fn read_listen<'a>(matches: &ArgMatches<'a>) -> Result<Job, Unread<'a>>
    requires { has_texts (rules_of (codes "listen")) (rows_of (found_of matches.now)) ≡ true }
    ensures { AnswersWords IsJobInRange (listen_of (rows_of (found_of matches.now)))
        (misfit_in (codes "listen", rows_of (found_of matches.now))) result }
{
    let at = address_at(matches)?;
    let universe = universe_at(matches)?;
    let count = count_at(matches)?;
    Ok(Job::Listen {
        at,
        universe,
        count,
    })
}

fn read_watch<'a>(matches: &ArgMatches<'a>) -> Result<Job, Unread<'a>>
    ensures { AnswersWords IsJobInRange (watch_job (rows_of (found_of matches.now)))
        (misfit_in (codes "watch", rows_of (found_of matches.now))) result }
{
    let universes = universes_at(matches)?;
    Ok(Job::Watch { universes })
}

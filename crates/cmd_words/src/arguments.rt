ghost use Rattle.std.specs.Prelude.{[], ◌∷◌, ◌++◌};
ghost use Rattle.std.specs.Prelude.{◌≡◌, ◌≤◌, All, IfOk, codes, is_some, length, map, option_map};
ghost use Rattle.std.specs.Prelude.{true};
ghost use Rattle.std.specs.List.{list_all};
ghost use Rattle.std.specs.Result.{result_map_both};
ghost use Rattle.clap.specs.Words.{all_of, first_of, found_of, rows_of};
ghost use Rattle.uuid.specs.Text.{parsed};
ghost use Rattle.ascii_text.specs.Forms.{cue_number_of};
ghost use Rattle.cmd_words.specs.Number.{number_between};
ghost use Rattle.cmd_words.specs.Target.{read_all, targets_of};
ghost use Rattle.cmd_words.specs.Job.{any_route_of, follows_of, has_flag, is_no_control};
ghost use Rattle.cmd_words.specs.Job.{is_source_name};
ghost use Rattle.cmd_words.specs.Job.{patience_of, resumes_of, source_name_of, spare_of};
ghost use Rattle.cmd_words.specs.Job.{start_cue, texts_of, value_by, value_or};
ghost use Rattle.cmd_words.specs.Address.{address_of};
ghost use Rattle.cmd_words.specs.Misfit.{ReadsArgument, misfit_at, unfit_of};
ghost use Rattle.cmd_words.specs.Watched.{named_behind, read_universes, watch_universes};

use crate::address::address;
use crate::job::Name;
use crate::misfit::{Form, Misfit};
use crate::number::{TOP_UNIVERSE, number_between};
use crate::target::{target, universe};
use crate::universe_list::{MOST_UNIVERSES, UniverseList};
use ascii_text::cue_number;
use clap::ArgMatches;
use std::alloc::{AllocError, Global};
use targets::{MOST_TARGETS, Targets};
use uuid::Uuid;

/// The text of an argument that has to be there.
pub(crate) fn text_at<'a>(matches: &ArgMatches<'a>, id: &str) -> &'a str
    requires { is_some (first_of id.now (rows_of (found_of matches.now))) ≡ true }
    ensures { first_of id.now (rows_of (found_of matches.now)) ≡ Some result.now }
{
    given_at(matches, id).unwrap()
}

/// The text of an argument, where it is there.
pub(crate) fn given_at<'a>(matches: &ArgMatches<'a>, id: &str) -> Option<&'a str>
    ensures { option_map (λ text. text.now) result
        ≡ first_of id.now (rows_of (found_of matches.now)) }
{
    matches.get_str(id)
}

/// Whether a flag was given.
pub(crate) fn has_flag(matches: &ArgMatches<'_>, id: &str) -> bool
    ensures { result ≡ has_flag id.now (rows_of (found_of matches.now)) }
{
    match given_at(matches, id) {
        Some(text) => text == "true",
        None => false,
    }
}

/// The name that an argument gives, where it is there.
pub(crate) fn name_at(
    alloc: Global,
    matches: &ArgMatches<'_>,
    id: &str,
) -> Result<Option<Name>, AllocError>
    ensures { IfOk result (λ name. name ≡ first_of id.now (rows_of (found_of matches.now))) }
{
    name_of(alloc, given_at(matches, id))
}

/// The name that a text is, where it is there.
pub(crate) fn name_of(alloc: Global, text: Option<&str>) -> Result<Option<Name>, AllocError>
    ensures { IfOk result (λ name. name ≡ option_map (λ text. text.now) text.entry) }
{
    match text {
        Some(text) => Ok(Some(Name::new(alloc, text)?)),
        None => Ok(None),
    }
}

/// The cue number of a line that has one, in thousandths.
pub(crate) fn cue_at<'a>(matches: &ArgMatches<'a>) -> Result<u32, Misfit<'a>>
    requires { is_some (first_of (codes "CUE") (rows_of (found_of matches.now))) ≡ true }
    ensures { ReadsArgument (value_by cue_number_of (codes "CUE") (rows_of (found_of matches.now)))
        (misfit_at (codes "CUE") (rows_of (found_of matches.now))) result }
{
    let text = text_at(matches, "CUE");
    let Some(cue) = cue_number(text.as_bytes()) else {
        return Err(Misfit {
            argument: "CUE",
            form: Form::Cue,
            text,
        });
    };
    Ok(cue)
}

/// Whether a night is taken up, which wants for a record.
pub(crate) fn resumes_at<'a>(matches: &ArgMatches<'a>) -> Result<bool, Misfit<'a>>
    ensures { ReadsArgument (resumes_of (rows_of (found_of matches.now)))
        (misfit_at (codes "resume") (rows_of (found_of matches.now))) result }
{
    let Some(text) = given_at(matches, "resume") else {
        return Ok(false);
    };
    if text != "true" {
        return Ok(false);
    }
    if given_at(matches, "record").is_none() {
        return Err(Misfit {
            argument: "resume",
            form: Form::Recorded,
            text,
        });
    }
    Ok(true)
}

/// Whether a night is a spare, which wants for one that is taken up.
pub(crate) fn spare_at<'a>(matches: &ArgMatches<'a>) -> Result<bool, Misfit<'a>>
    ensures { ReadsArgument (spare_of (rows_of (found_of matches.now)))
        (misfit_at (codes "spare") (rows_of (found_of matches.now))) result }
{
    let Some(text) = given_at(matches, "spare") else {
        return Ok(false);
    };
    if text != "true" {
        return Ok(false);
    }
    if !has_flag(matches, "resume") {
        return Err(Misfit {
            argument: "spare",
            form: Form::Resumed,
            text,
        });
    }
    Ok(true)
}

/// Whether a night goes by any route, which wants for a card.
pub(crate) fn any_route_at<'a>(matches: &ArgMatches<'a>) -> Result<bool, Misfit<'a>>
    ensures { ReadsArgument (any_route_of (rows_of (found_of matches.now)))
        (misfit_at (codes "any-route") (rows_of (found_of matches.now))) result }
{
    let Some(text) = given_at(matches, "any-route") else {
        return Ok(false);
    };
    if text != "true" {
        return Ok(false);
    }
    if given_at(matches, "interface").is_none() {
        return Err(Misfit {
            argument: "any-route",
            form: Form::ByCard,
            text,
        });
    }
    Ok(true)
}

/// The cue that a night starts in, where one is named.
pub(crate) fn start_at<'a>(matches: &ArgMatches<'a>) -> Result<Option<u32>, Misfit<'a>>
    ensures { ReadsArgument (start_cue (rows_of (found_of matches.now)))
        (misfit_at (codes "start") (rows_of (found_of matches.now))) result }
{
    let Some(text) = given_at(matches, "start") else {
        return Ok(None);
    };
    let Some(cue) = cue_number(text.as_bytes()) else {
        return Err(Misfit {
            argument: "start",
            form: Form::Cue,
            text,
        });
    };
    Ok(Some(cue))
}

/// Whether a night follows a main, which goes without a record to take up and a cue to start in.
pub(crate) fn follows_at<'a>(matches: &ArgMatches<'a>) -> Result<bool, Misfit<'a>>
    ensures { ReadsArgument (follows_of (rows_of (found_of matches.now)))
        (misfit_at (codes "follow") (rows_of (found_of matches.now))) result }
{
    let Some(text) = given_at(matches, "follow") else {
        return Ok(false);
    };
    if has_flag(matches, "resume") || given_at(matches, "start").is_some() {
        return Err(Misfit {
            argument: "follow",
            form: Form::Alone,
            text,
        });
    }
    Ok(true)
}

/// How long a main may be silent, in milliseconds; 1,000 where it is absent.
pub(crate) fn patience_at<'a>(matches: &ArgMatches<'a>) -> Result<u32, Misfit<'a>>
    ensures { ReadsArgument (patience_of (rows_of (found_of matches.now)))
        (misfit_at (codes "patience") (rows_of (found_of matches.now))) result }
{
    let Some(text) = given_at(matches, "patience") else {
        return Ok(1000);
    };
    if given_at(matches, "follow").is_none() {
        return Err(Misfit {
            argument: "patience",
            form: Form::Followed,
            text,
        });
    }
    let Some(patience) = number_between(text, 1, 60_000) else {
        return Err(Misfit {
            argument: "patience",
            form: Form::Patience,
            text,
        });
    };
    Ok(patience)
}

/// The CID of a line that has one.
pub(crate) fn cid_at<'a>(matches: &ArgMatches<'a>) -> Result<[u8; 16], Misfit<'a>>
    requires { is_some (first_of (codes "cid") (rows_of (found_of matches.now))) ≡ true }
    ensures { ReadsArgument (value_by parsed (codes "cid") (rows_of (found_of matches.now)))
        (misfit_at (codes "cid") (rows_of (found_of matches.now))) result }
{
    let text = text_at(matches, "cid");
    let Some(cid) = cid_of(text) else {
        return Err(Misfit {
            argument: "cid",
            form: Form::Cid,
            text,
        });
    };
    Ok(cid)
}

/// The address of a line that listens.
pub(crate) fn address_at<'a>(matches: &ArgMatches<'a>) -> Result<([u8; 4], u16), Misfit<'a>>
    requires { is_some (first_of (codes "ADDR") (rows_of (found_of matches.now))) ≡ true }
    ensures { ReadsArgument (value_by address_of (codes "ADDR") (rows_of (found_of matches.now)))
        (misfit_at (codes "ADDR") (rows_of (found_of matches.now))) result }
{
    let text = text_at(matches, "ADDR");
    let Some(at) = address(text) else {
        return Err(Misfit {
            argument: "ADDR",
            form: Form::Address,
            text,
        });
    };
    Ok(at)
}

/// The targets of a line that plays.
pub(crate) fn targets_at<'a>(matches: &ArgMatches<'a>) -> Result<Targets, Misfit<'a>>
    ensures { ReadsArgument (targets_of (texts_of (codes "to") (rows_of (found_of matches.now))))
        (misfit_at (codes "to") (rows_of (found_of matches.now))) result }
{
    let Some(texts) = texts_at(matches, "to") else {
        return Ok(Targets::new());
    };
    if let Some(text) = texts.get(MOST_TARGETS) {
        return Err(Misfit {
            argument: "to",
            form: Form::Few,
            text,
        });
    }
    match read_targets(texts) {
        Ok(targets) => Ok(targets),
        Err(text) => Err(Misfit {
            argument: "to",
            form: Form::Target,
            text,
        }),
    }
}

// The targets that the texts spell, or the first text that spells none.
fn read_targets<'a>(texts: &[&'a str]) -> Result<Targets, &'a str>
    requires { length texts.now ≤ 64 }
    ensures { result_map_both (λ targets. targets) (λ text. text.now) result
        ≡ read_all (map (λ text. text.now) texts.now) }
{
    let mut targets = Targets::new();
    for text in texts {
        let Some(target) = target(text) else {
            return Err(text);
        };
        targets.add(target);
    }
    Ok(targets)
}

// All texts of an option, in the order in which they were given.
fn texts_at<'m, 'a: 'm>(matches: &'m ArgMatches<'a>, id: &str) -> Option<&'m [&'a str]>
    ensures { option_map (λ texts. map (λ text. text.now) texts.now) result
        ≡ all_of id.now (rows_of (found_of matches.now)) }
{
    matches.get_strs(id)
}

/// The universe of a line that listens.
pub(crate) fn universe_at<'a>(matches: &ArgMatches<'a>) -> Result<u16, Misfit<'a>>
    requires { is_some (first_of (codes "UNIVERSE") (rows_of (found_of matches.now))) ≡ true }
    ensures value { ReadsArgument (value_by (number_between 1 63999) (codes "UNIVERSE")
        (rows_of (found_of matches.now)))
        (misfit_at (codes "UNIVERSE") (rows_of (found_of matches.now))) result }
    ensures within { IfOk result (λ universe. (1 ≤ universe) × (universe ≤ 63999)) }
{
    let text = text_at(matches, "UNIVERSE");
    let Some(universe) = number_between(text, 1, TOP_UNIVERSE) else {
        return Err(Misfit {
            argument: "UNIVERSE",
            form: Form::Universe,
            text,
        });
    };
    Ok(universe as u16)
}

/// The universes of a line that watches.
pub(crate) fn universes_at<'a>(matches: &ArgMatches<'a>) -> Result<UniverseList, Misfit<'a>>
    ensures value { ReadsArgument
        (watch_universes (texts_of (codes "UNIVERSES") (rows_of (found_of matches.now))))
        (misfit_at (codes "UNIVERSES") (rows_of (found_of matches.now))) result }
    ensures within { IfOk result (λ list. All (λ u. (1 ≤ u) × (u ≤ 63999)) list) }
{
    let Some(texts) = texts_at(matches, "UNIVERSES") else {
        return Ok(UniverseList::new());
    };
    if let Some(text) = texts.get(MOST_UNIVERSES) {
        return Err(Misfit {
            argument: "UNIVERSE",
            form: Form::Sixteen,
            text,
        });
    }
    read_universes(texts)
}

// The universes that the texts name, or the first text that names none, or one once more.
fn read_universes<'a>(texts: &[&'a str]) -> Result<UniverseList, Misfit<'a>>
    requires { length texts.now ≤ 16 }
    ensures value { result_map_both (λ list. list) unfit_of result
        ≡ read_universes (map (λ text. text.now) texts.now) }
    ensures within { IfOk result (λ list. All (λ u. (1 ≤ u) × (u ≤ 63999)) list) }
{
    let mut list = UniverseList::new();
    for text in texts {
        let universe = universe_behind(&list, text)?;
        list.add(universe);
    }
    Ok(list)
}

// The universe that a text names behind others, none of which it is.
fn universe_behind<'a>(before: &UniverseList, text: &'a str) -> Result<u16, Misfit<'a>>
    ensures value { result_map_both (λ universe. before.now ++ universe ∷ []) unfit_of result
        ≡ named_behind before.now text.now (number_between 1 63999 text.now) }
    ensures within { IfOk result (λ universe. (1 ≤ universe) × (universe ≤ 63999)) }
{
    let Some(universe) = universe(text) else {
        return Err(Misfit {
            argument: "UNIVERSE",
            form: Form::Universe,
            text,
        });
    };
    if before.contains(universe) {
        return Err(Misfit {
            argument: "UNIVERSE",
            form: Form::Once,
            text,
        });
    }
    Ok(universe)
}

/// The count of a line that listens.
pub(crate) fn count_at<'a>(matches: &ArgMatches<'a>) -> Result<u32, Misfit<'a>>
    requires { is_some (first_of (codes "COUNT") (rows_of (found_of matches.now))) ≡ true }
    ensures { ReadsArgument (value_by (number_between 1 1000000) (codes "COUNT")
        (rows_of (found_of matches.now)))
        (misfit_at (codes "COUNT") (rows_of (found_of matches.now))) result }
{
    let text = text_at(matches, "COUNT");
    let Some(count) = number_between(text, 1, 1_000_000) else {
        return Err(Misfit {
            argument: "COUNT",
            form: Form::Count,
            text,
        });
    };
    Ok(count)
}

/// The priority; 100 where it is absent.
pub(crate) fn priority_at<'a>(matches: &ArgMatches<'a>) -> Result<u8, Misfit<'a>>
    ensures value { ReadsArgument (value_or 100 (number_between 0 200) (codes "priority")
        (rows_of (found_of matches.now)))
        (misfit_at (codes "priority") (rows_of (found_of matches.now))) result }
    ensures within { IfOk result (λ priority. priority ≤ 200) }
{
    let Some(text) = given_at(matches, "priority") else {
        return Ok(100);
    };
    let Some(priority) = number_between(text, 0, 200) else {
        return Err(Misfit {
            argument: "priority",
            form: Form::Priority,
            text,
        });
    };
    Ok(priority as u8)
}

/// The number of the first universe; 1 where it is absent.
pub(crate) fn base_at<'a>(matches: &ArgMatches<'a>) -> Result<u16, Misfit<'a>>
    ensures { ReadsArgument (value_or 1 (number_between 1 63999) (codes "base")
        (rows_of (found_of matches.now)))
        (misfit_at (codes "base") (rows_of (found_of matches.now))) result }
{
    let Some(text) = given_at(matches, "base") else {
        return Ok(1);
    };
    let Some(base) = number_between(text, 1, TOP_UNIVERSE) else {
        return Err(Misfit {
            argument: "base",
            form: Form::Universe,
            text,
        });
    };
    Ok(base as u16)
}

/// The text that names the source, where it is there.
pub(crate) fn source_name_at<'m, 'a>(
    matches: &'m ArgMatches<'a>,
) -> Result<Option<&'a str>, Misfit<'a>>
    ensures { ReadsArgument (source_name_of (rows_of (found_of matches.now)))
        (misfit_at (codes "name") (rows_of (found_of matches.now)))
        (result_map_both (option_map (λ text. text.now)) (λ misfit. misfit) result) }
{
    let Some(text) = given_at(matches, "name") else {
        return Ok(None);
    };
    if !is_source_name(text) {
        return Err(Misfit {
            argument: "name",
            form: Form::SourceName,
            text,
        });
    }
    Ok(Some(text))
}

fn is_source_name(text: &str) -> bool
    ensures { result ≡ is_source_name text.now }
{
    let bytes = text.as_bytes();
    if bytes.is_empty() || bytes.len() > 63 {
        return false;
    }
    has_no_controls(bytes)
}

// A name stands in lines of text, and a terminal shows it.
fn has_no_controls(bytes: &[u8]) -> bool
    ensures { result ≡ list_all is_no_control bytes.now }
{
    bytes.iter().all(|byte| *byte >= 32 && *byte != 127)
}

/// The TTL of multicast; 1 where it is absent.
pub(crate) fn ttl_at<'a>(matches: &ArgMatches<'a>) -> Result<u8, Misfit<'a>>
    ensures { ReadsArgument (value_or 1 (number_between 1 255) (codes "ttl")
        (rows_of (found_of matches.now)))
        (misfit_at (codes "ttl") (rows_of (found_of matches.now))) result }
{
    let Some(text) = given_at(matches, "ttl") else {
        return Ok(1);
    };
    let Some(ttl) = number_between(text, 1, 255) else {
        return Err(Misfit {
            argument: "ttl",
            form: Form::Ttl,
            text,
        });
    };
    Ok(ttl as u8)
}

fn cid_of(text: &str) -> Option<[u8; 16]>
    ensures { result ≡ parsed text.now }
{
    match Uuid::parse_str(text) {
        Ok(cid) => Some(cid.into_bytes()),
        Err(_) => None,
    }
}

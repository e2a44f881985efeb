ghost use Rattle.std.specs.Prelude.{◌≡◌, IfOk};
ghost use Rattle.clap.specs.Words.{app_of};
ghost use Rattle.cmd_words.specs.Program.{players, program, readers, trials};
ghost use Rattle.cmd_words.specs.Program.{with_commands, without_lines};

use crate::line::{Argument, Line, with_lines};
use clap::Command;
use std::alloc::{AllocError, Global};

const SHOW: Argument<'static> = Argument::Positional(
    "SHOW",
    "The show's file, or - for standard input",
);

const SHOW_FILE: Argument<'static> = Argument::Positional("SHOW", "The show's file");

const CUE: Argument<'static> = Argument::Positional(
    "CUE",
    "The number of the cue, as the show spells it: 1, 1.5, .25",
);

const CID: Argument<'static> = Argument::Required(
    "cid",
    "UUID",
    "The sender's own CID, which it keeps: 32 hex digits, as uuidgen prints them",
);

const TO: Argument<'static> = Argument::Repeated(
    "to",
    "TARGET",
    "Where to send: a.b.c.d, at port 5568, or a.b.c.d:port; 239.255.0.0 for multicast groups. \
        3=a.b.c.d and 1-8=a.b.c.d are for these universes alone. More than once for more targets",
);

const PRIORITY: Argument<'static> = Argument::Optional(
    "priority",
    "P",
    "The priority, 0 to 200; 100 by default",
);

const BASE: Argument<'static> = Argument::Optional(
    "base",
    "U",
    "The number of the first universe, 1 to 63999; 1 by default",
);

const INTERFACE: Argument<'static> = Argument::Optional(
    "interface",
    "CARD",
    "The network card to send by: its name, as eth0, or its address",
);

const ANY_ROUTE: Argument<'static> = Argument::Flag(
    "any-route",
    "Sends even if the route to a target leads by another card; needs --interface",
);

const NAME: Argument<'static> = Argument::Optional(
    "name",
    "TEXT",
    "The source's name on monitors, 1 to 63 bytes; by default cueplayer, for live with the machine's",
);

const TTL: Argument<'static> = Argument::Optional(
    "ttl",
    "HOPS",
    "The TTL of multicast, 1 to 255, for routers on the way; 1 by default",
);

const RECORD: Argument<'static> = Argument::Optional(
    "record",
    "FILE",
    "A new file, or an empty one, for the lines that are played: a text for play",
);

const RESUME: Argument<'static> = Argument::Flag(
    "resume",
    "Takes up the night of the record, and goes on in it; needs --record",
);

const SPARE: Argument<'static> = Argument::Flag(
    "spare",
    "Stands by as a spare of the night that it takes up; needs --resume",
);

const START: Argument<'static> = Argument::Optional(
    "start",
    "N",
    "The number of the cue that the night starts in, at full",
);

const FOLLOW: Argument<'static> = Argument::Optional(
    "follow",
    "FILE",
    "The record of a main: its lines are carried out as they come, until it is silent",
);

const PATIENCE: Argument<'static> = Argument::Optional(
    "patience",
    "MS",
    "How long a main may be silent, 1 to 60000 milliseconds; 1000 by default",
);

const END_WITH_INPUT: Argument<'static> = Argument::Flag(
    "end-with-input",
    "Ends the night when its input ends; without it the light holds",
);

const STRICT: Argument<'static> = Argument::Flag(
    "strict",
    "Refuses a show that may mean something else than is played, as explain says",
);

const JSON: Argument<'static> = Argument::Flag("json", "Prints JSON, for tools");

const SCRIPT: Argument<'static> = Argument::Positional(
    "SCRIPT",
    "The script's file, of at most 16 MiB",
);

const ADDR: Argument<'static> = Argument::Positional(
    "ADDR",
    "Where to receive: a.b.c.d, at port 5568, or a.b.c.d:port; 0.0.0.0 is all of this machine",
);

const UNIVERSE: Argument<'static> = Argument::Positional(
    "UNIVERSE",
    "The universe to receive, 1 to 63999",
);

const UNIVERSES: Argument<'static> = Argument::Several(
    "UNIVERSES",
    "UNIVERSE",
    "The universes to watch, 1 to 63999: at most 16, each once",
);

const COUNT: Argument<'static> = Argument::Positional(
    "COUNT",
    "How many datagrams to receive, 1 to 1000000: then the run ends",
);

const READERS: [Line<'static>; 5] = [
    Line {
        name: "check",
        about: "Prints what is in a show, or its first fault and the line",
        example: "Example: cueplayer check night.asc --strict",
        arguments: &[SHOW, STRICT],
    },
    Line {
        name: "explain",
        about: "Prints which lines of a show are skipped, and why, and notes for its author",
        example: "Example: cueplayer explain night.asc",
        arguments: &[SHOW],
    },
    Line {
        name: "cues",
        about: "Prints the cue list with its labels and times, for people or for tools",
        example: "Example: cueplayer cues night.asc --json",
        arguments: &[SHOW, JSON],
    },
    Line {
        name: "look",
        about: "Prints the packets of one cue at full, in hex, one line a universe",
        example: "Example: cueplayer look night.asc 1.5 --cid c0ffee00-0000-4000-8000-00000000e131",
        arguments: &[SHOW, CUE, CID],
    },
    Line {
        name: "slots",
        about: "Prints the levels of one cue at full, slot by slot",
        example: "Example: cueplayer slots night.asc 1.5 --base 1",
        arguments: &[SHOW, CUE, BASE],
    },
];

const PLAYERS: [Line<'static>; 2] = [
    Line {
        name: "play",
        about: "Plays the lines of standard input to the network",
        example: "Example: cueplayer play night.asc --to 10.0.0.7 \
            --cid c0ffee00-0000-4000-8000-00000000e131",
        arguments: &[
            SHOW_FILE, TO, CID, PRIORITY, BASE, INTERFACE, ANY_ROUTE, NAME, TTL,
        ],
    },
    Line {
        name: "live",
        about: "Plays what is typed to the network by the clock, and records it",
        example: "Example: cueplayer live night.asc --to 10.0.0.7 \
            --cid c0ffee00-0000-4000-8000-00000000e131",
        arguments: &[
            SHOW_FILE,
            TO,
            CID,
            PRIORITY,
            BASE,
            INTERFACE,
            ANY_ROUTE,
            NAME,
            TTL,
            RECORD,
            RESUME,
            SPARE,
            START,
            FOLLOW,
            PATIENCE,
            END_WITH_INPUT,
        ],
    },
];

const TRIALS: [Line<'static>; 3] = [
    Line {
        name: "rehearse",
        about: "Rehearses a night in memory: consoles, receivers, and what the network does",
        example: "Example: cueplayer rehearse night.asc backup.script",
        arguments: &[SHOW_FILE, SCRIPT],
    },
    Line {
        name: "listen",
        about: "Prints what a receiver makes of datagrams, and its slots at the end",
        example: "Example: cueplayer listen 0.0.0.0 1 40",
        arguments: &[ADDR, UNIVERSE, COUNT],
    },
    Line {
        name: "watch",
        about: "Prints what changes on universes by the clock, from datagrams on standard input",
        example: "Example: cueplayer watch 1 2 <night.lines",
        arguments: &[UNIVERSES],
    },
];

/// The command whose subcommands are the program's lines.
pub(crate) fn program<'a>(alloc: Global) -> Result<Command<'a>, AllocError>
    ensures { IfOk result (λ command. app_of command ≡ program) }
{
    let command = with_readers(alloc, without_lines(alloc)?)?;
    with_trials(alloc, with_players(alloc, command)?)
}

fn with_readers<'a>(alloc: Global, command: Command<'a>) -> Result<Command<'a>, AllocError>
    ensures { IfOk result (λ whole. app_of whole ≡ with_commands (app_of command.entry) readers) }
{
    with_lines(alloc, command, &READERS)
}

fn with_players<'a>(alloc: Global, command: Command<'a>) -> Result<Command<'a>, AllocError>
    ensures { IfOk result (λ whole. app_of whole ≡ with_commands (app_of command.entry) players) }
{
    with_lines(alloc, command, &PLAYERS)
}

fn with_trials<'a>(alloc: Global, command: Command<'a>) -> Result<Command<'a>, AllocError>
    ensures { IfOk result (λ whole. app_of whole ≡ with_commands (app_of command.entry) trials) }
{
    with_lines(alloc, command, &TRIALS)
}

fn without_lines<'a>(alloc: Global) -> Result<Command<'a>, AllocError>
    ensures { IfOk result (λ command. app_of command ≡ without_lines) }
{
    Command::new(alloc, "cueplayer")
        .about("Plays the cues of a show")
        .subcommand_required(true)
        .bin_name("cueplayer")
}

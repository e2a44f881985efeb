ghost use Rattle.std.specs.Prelude.{◌≡◌, IfOk};
ghost use Rattle.clap.specs.Words.{app_of};
ghost use Rattle.cmd_words.specs.Program.{IsArgument, IsLine, required_word, required_option};
ghost use Rattle.cmd_words.specs.Program.{flag, option, repeated_option, several};
ghost use Rattle.cmd_words.specs.Line.{app_of_line, rule_of_argument, with_lines};

use clap::{Arg, ArgAction, Command};
use std::alloc::{AllocError, Global};

/// An argument of a line: its name, the name of its value where it is an option, and its help.
#[derive(Clone, Copy)]
pub(crate) enum Argument<'a> {
    /// The next word, which has to be there.
    Positional(&'a str, &'a str),

    /// The next word, which has to be there, and each behind it.
    Several(&'a str, &'a str, &'a str),

    /// An option that has to be there.
    Required(&'a str, &'a str, &'a str),

    /// An option that has to be there, and may be there more than once.
    Repeated(&'a str, &'a str, &'a str),

    /// An option that may be absent.
    Optional(&'a str, &'a str, &'a str),

    /// An option without a value: its name and its help.
    Flag(&'a str, &'a str),
}

impl<'a> Argument<'a> {
    fn arg(self, alloc: Global) -> Arg<'a>
        ensures { IsArgument (rule_of_argument self.entry) result }
    {
        match self {
            Argument::Positional(id, help) => required_argument(alloc, id, help),
            Argument::Several(id, value, help) => several(alloc, id, help).value_name(value),
            Argument::Required(id, value, help) => required_option(alloc, id, value, help),
            Argument::Repeated(id, value, help) => repeated_option(alloc, id, value, help),
            Argument::Optional(id, value, help) => option(alloc, id, value, help),
            Argument::Flag(id, help) => flag(alloc, id, help),
        }
    }
}

/// A line of the program: its name, what its help tells, and its arguments in order.
#[derive(Clone, Copy)]
pub(crate) struct Line<'a> {
    pub name: &'a str,
    pub about: &'a str,
    pub example: &'a str,
    pub arguments: &'a [Argument<'a>],
}

impl<'a> Line<'a> {
    /// The line as a command, with its example at the end of its help.
    #[tactic(auto, using(std::proofs::lemmas::List::Sums::fold_more))]
    pub(crate) fn command(&self, alloc: Global) -> Result<Command<'a>, AllocError>
        ensures { IfOk result (IsLine (app_of_line self.now)) }
    {
        let mut command = Command::new(alloc, self.name)
            .about(self.about)
            .after_help(self.example);
        for argument in self.arguments {
            command = command.arg(argument.arg(alloc))?;
        }
        Ok(command)
    }
}

/// The command with these lines as its subcommands.
#[tactic(auto, using(std::proofs::lemmas::List::Sums::fold_more))]
pub(crate) fn with_lines<'a>(
    alloc: Global,
    mut command: Command<'a>,
    lines: &[Line<'a>],
) -> Result<Command<'a>, AllocError>
    ensures { IfOk result (λ whole. app_of whole ≡ with_lines (app_of command.entry) lines.now) }
{
    for line in lines {
        command = command.subcommand(line.command(alloc)?)?;
    }
    Ok(command)
}

fn required_argument<'a>(alloc: Global, id: &'a str, help: &'a str) -> Arg<'a>
    ensures { IsArgument (required_word id.now) result }
{
    Arg::new(alloc, id).required(true).help(help)
}

fn several<'a>(alloc: Global, id: &'a str, help: &'a str) -> Arg<'a>
    ensures { IsArgument (several id.now) result }
{
    required_argument(alloc, id, help).num_args(1..)
}

fn option<'a>(alloc: Global, id: &'a str, value: &'a str, help: &'a str) -> Arg<'a>
    ensures { IsArgument (option id.now) result }
{
    Arg::new(alloc, id).help(help).long(id).value_name(value)
}

fn flag<'a>(alloc: Global, id: &'a str, help: &'a str) -> Arg<'a>
    ensures { IsArgument (flag id.now) result }
{
    Arg::new(alloc, id)
        .help(help)
        .long(id)
        .action(ArgAction::SetTrue)
}

fn required_option<'a>(alloc: Global, id: &'a str, value: &'a str, help: &'a str) -> Arg<'a>
    ensures { IsArgument (required_option id.now) result }
{
    required_argument(alloc, id, help)
        .long(id)
        .value_name(value)
}

fn repeated_option<'a>(alloc: Global, id: &'a str, value: &'a str, help: &'a str) -> Arg<'a>
    ensures { IsArgument (repeated_option id.now) result }
{
    required_option(alloc, id, value, help).action(ArgAction::Append)
}

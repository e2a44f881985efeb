ghost use Rattle.std.specs.Prelude.{◌≡◌};
ghost use Rattle.remarks.specs.Misfits.{dashes, is_flag, of_flag, of_misfit, of_text};

use crate::remark::{Remark, join, part};
use cmd_words::{Form, Misfit};

/// An argument as it was typed, and the form that it should have. An option's name is in small
/// letters, and stands behind two dashes.
pub fn of_misfit(misfit: &Misfit<'_>) -> Remark
    ensures { result.items ≡ of_misfit misfit.now }
{
    let dashes = dashes(misfit.argument);
    let form = misfit.form.text();
    // A flag has no text of its own.
    if is_flag(misfit.form) {
        of_flag(dashes, misfit.argument, form)
    } else {
        of_text(dashes, misfit.argument, misfit.text, form)
    }
}

fn of_flag(dashes: &str, name: &str, form: &str) -> Remark
    ensures { result.items ≡ of_flag dashes.now name.now form.now }
{
    join(&[part(dashes), part(name), b": ", part(form)])
}

fn of_text(dashes: &str, name: &str, text: &str, form: &str) -> Remark
    ensures { result.items ≡ of_text dashes.now name.now text.now form.now }
{
    join(&[
        part(dashes),
        part(name),
        b" `",
        part(text),
        b"`: ",
        part(form),
    ])
}

fn dashes(argument: &str) -> &'static str
    ensures { result.now ≡ dashes argument.now }
{
    match argument.as_bytes() {
        [first, ..] if first.is_ascii_lowercase() => "--",
        _ => "",
    }
}

fn is_flag(form: Form) -> bool
    ensures { result ≡ is_flag form }
{
    matches!(form, Form::Recorded | Form::Resumed | Form::ByCard)
}

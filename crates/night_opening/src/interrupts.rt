ghost use Rattle.std.specs.Prelude.{◌≡◌, Ok, MatchResult, string_bytes};
ghost use Rattle.night_opening.specs.Interrupts.{interrupts_by, interrupts_without};

use cmd_faults::RunFault;
use std::env::VarError;

/// Whether control-C ends a night, by a variable of the environment: it does unless that is
/// `ignored`.
///
/// # Errors
///
/// `Memory` where that was refused as the variable was read.
pub fn is_interruptible(variable: &Result<String, VarError>) -> Result<bool, RunFault>
    ensures { MatchResult variable.now
        (λ text. result ≡ Ok (interrupts_by (string_bytes text)))
        (λ reason. result ≡ interrupts_without reason) }
{
    match variable {
        Ok(text) => Ok(text.as_str() != "ignored"),
        Err(VarError::OutOfMemory) => Err(RunFault::Memory),
        Err(_) => Ok(true),
    }
}

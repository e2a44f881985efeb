ghost use Rattle.std.specs.Prelude.{◌≡◌};
ghost use Rattle.remarks.specs.Asking.{has_remarks, is_free};

/// Whether there are remarks: at a terminal, where this variable of the environment asks for them
/// by `1`, and always of a subcommand whose texts are no programs' to read.
pub fn has_remarks(subcommand: &[u8], variable: &[u8], is_terminal: bool) -> bool
    ensures { result ≡ has_remarks subcommand.now variable.now is_terminal }
{
    is_terminal || variable == b"1".as_slice() || is_free(subcommand)
}

// Programs read the texts of `check`, `look`, `play`, `rehearse` and `listen`, and of refused
// words, so these are the same everywhere.
fn is_free(subcommand: &[u8]) -> bool
    ensures { result ≡ is_free subcommand.now }
{
    subcommand == b"explain".as_slice()
        || subcommand == b"cues".as_slice()
        || subcommand == b"slots".as_slice()
        || subcommand == b"live".as_slice()
        || subcommand == b"watch".as_slice()
}

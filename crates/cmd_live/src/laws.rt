//! What holds of every night that takes up or follows a record. A law does nothing: its contract is
//! the law.

ghost use Rattle.cmd_live.specs.Backup.{FollowingLaw};
ghost use Rattle.cmd_live.specs.Spare.{SpareLaw};

/// Over a whole following the lines that the night is told are those of the main's record, each
/// once and in order, without its comments; each is in its own record, and each comment was told.
pub fn following_law()
    ensures { FollowingLaw }
{}

/// Once a record is taken up, each line that stands in it was told, once and in order.
pub fn spare_law()
    ensures { SpareLaw }
{}

//! What holds of every table. A law does nothing: its contract is the law.

ghost use Rattle.network_tables.specs.Best.{BestRouteLaw};
ghost use Rattle.network_tables.specs.Neighbors.{SilenceLaw};

/// Read one by one by [`better`](crate::better), the routes of a table give the first of those that
/// lead to a host and look at most bits.
#[tactic(auto, using(crate::proofs::Widest::best_route))]
pub fn best_route_law()
    ensures { BestRouteLaw }
{}

/// A way whose first taker is silent stays silent, by whichever other machine it leads from now on,
/// until a row of the table of neighbors says that this one answered.
#[tactic(auto, using(crate::proofs::Silent::stays_silent))]
pub fn silence_law()
    ensures { SilenceLaw }
{}

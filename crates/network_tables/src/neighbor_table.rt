ghost use Rattle.std.specs.Prelude.{ℕ, List, All, IfNone, IfSome};
ghost use Rattle.byte_reading.specs.LinesLeft.{bytes_left, source};
ghost use Rattle.byte_reading.specs.ShortLines.{AreRead};
ghost use Rattle.network_tables.specs.NeighborRows.{IsNextNeighbor, IsNoNeighbor};

use crate::neighbor::Neighbor;
use byte_reading::{BlockSource, ShortLines};

/// The next neighbor of a table like `/proc/net/arp`; `None` where no line that is left is a
/// neighbor's, or where a read fails before.
pub fn next_neighbor<B: BlockSource>(table: &mut ShortLines<B>) -> Option<Neighbor>
    ensures some { IfSome result (λ neighbor. IsNextNeighbor (bytes_left B.left table.old)
        (bytes_left B.left table.new) neighbor) }
    ensures none { IfNone result ((lines : List (List ℕ))
        × AreRead (bytes_left B.left table.old) (B.may_fail (source table.old)) lines
        × All IsNoNeighbor lines) }
    ensures same { B.may_fail (source table.new) → B.may_fail (source table.old) }
{
    for _ in 0..u64::MAX {
        let Some(line) = table.next_line() else {
            return None;
        };
        if let Some(neighbor) = Neighbor::read(line.as_str().as_bytes()) {
            return Some(neighbor);
        }
    }
    None
}

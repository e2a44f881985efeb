ghost use Rattle.std.specs.Prelude.{◌≡◌, ℕ, List, option_map};
ghost use Rattle.byte_reading.specs.LinesLeft.{bytes_left, source};
ghost use Rattle.byte_reading.specs.ShortLines.{AreRead};
ghost use Rattle.network_tables.specs.Best.{best_among, better_by, routes_in};
ghost use Rattle.network_tables.specs.Routes.{route_of, route_seen};

use crate::route::{Route, better};
use byte_reading::{BlockSource, ShortLines};

/// The route of a table like `/proc/net/route` that leads to a host: of several the first that
/// looks at most bits. Where a read of the table fails, only the lines before that count.
pub fn best_route<B: BlockSource>(table: &mut ShortLines<B>, host: [u8; 4]) -> Option<Route>
    ensures { (lines : List (List ℕ))
        × AreRead (bytes_left B.left table.old) (B.may_fail (source table.old)) lines
        × (option_map route_seen result ≡ best_among host (routes_in lines)) }
{
    let mut best = None;
    for _ in 0..u64::MAX {
        let Some(line) = table.next_line() else {
            return best;
        };
        best = better_by(best, line.as_str().as_bytes(), host);
    }
    best
}

// The better of the best so far and a line, where that is a route's.
fn better_by(best: Option<Route>, line: &[u8], host: [u8; 4]) -> Option<Route>
    ensures { option_map route_seen result
        ≡ better_by host (option_map route_seen best) (route_of line.now) }
{
    match Route::read(line) {
        Some(route) => better(best, &route, host),
        None => best,
    }
}

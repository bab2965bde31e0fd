// How much fuel a draw is worth.
ghost use Rattle.std.specs.Prelude.{◌+◌, ◌*◌, ◌≤◌, length};
ghost use Rattle.quick_start.specs.Spent.{fuel_share};

use net_incidence::Net;

/// Fuel for each node and arc.
const FUEL_EACH: u64 = 20_000;

/// The fuel that a draw of the net is worth. A reading costs one unit, and so does each look at a lane, step on a cycle
/// and potential that is moved. Draws of 2,000 nodes and 10,000 arcs spend 3 to 420 units for each node and arc, and a run
/// that goes wrong ends after 20,000, in about a second. On a small net the share is less than that: it keeps the readings
/// of a solve in their bound.
pub fn fuel_of(net: &Net) -> u64
    ensures { result ≤ fuel_share net.now.nodes (length net.now.arcs) }
{
    let (nodes, arcs) = (net.nodes() as u64, net.arcs() as u64);
    let share = product(product(100 * arcs, arcs + 1), nodes + 3);
    share.min(product(nodes + arcs, FUEL_EACH))
}

/// The product, or the greatest number where it is greater.
fn product(a: u64, b: u64) -> u64
    ensures { result ≤ a * b }
{
    a.saturating_mul(b)
}

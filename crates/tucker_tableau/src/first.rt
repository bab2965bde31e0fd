// The first tableau: its numbers and its entries.
ghost use Rattle.std.specs.Prelude.{◌≡◌, ◌+◌, ◌<◌, ◌≤◌, length, IfOk};
ghost use Rattle.net_incidence.specs.Graph.{bare};
ghost use Rattle.tucker_tableau.specs.Cells.{IsStar};
ghost use Rattle.tucker_tableau.specs.Kept.{tableau_arcs_most, IsCounting};

use crate::entries::mark;
use net_incidence::{ArcId, Net};
use std::alloc::{AllocError, Global};

/// The numbers from `from` on.
pub fn numbers(alloc: Global, from: usize, count: usize) -> Result<Vec<u32>, AllocError>
    requires { from + count ≤ tableau_arcs_most }
    ensures { IfOk result (λ arcs. IsCounting from count arcs.items) }
{
    let mut arcs = Vec::new(alloc);
    for k in 0..count {
        arcs.push((from + k) as u32)?;
    }
    Ok(arcs)
}

/// The entries of the ground's rows: in the column of each other arc, 1 where it begins and -1 where it ends.
pub fn star_entries(
    alloc: Global,
    net: &Net,
    rows: usize,
    columns: usize,
) -> Result<Vec<i8>, AllocError>
    requires row_each { rows + 1 ≡ net.now.nodes }
    requires column_each { rows + columns ≡ length net.now.arcs }
    requires few { rows + columns ≤ tableau_arcs_most }
    ensures { IfOk result (λ entries. IsStar (bare net.now) rows columns entries.items columns) }
{
    let mut entries = vec![in alloc; 0i8; rows * columns]?;
    for j in 0..columns {
        mark_arc(&mut entries, net, rows, columns, j);
    }
    Ok(entries)
}

/// A column of them.
fn mark_arc(entries: &mut [i8], net: &Net, rows: usize, columns: usize, j: usize)
    requires row_each { rows + 1 ≡ net.now.nodes }
    requires column_each { rows + columns ≡ length net.now.arcs }
    requires few { rows + columns ≤ tableau_arcs_most }
    requires column { j < columns }
    requires before { IsStar (bare net.now) rows columns entries.old j }
    ensures { IsStar (bare net.now) rows columns entries.new (j + 1) }
{
    let arc = ArcId((rows + j) as u32);
    mark(entries, columns, net.from(arc).0 as usize, j, 1);
    mark(entries, columns, net.to(arc).0 as usize, j, -1);
}

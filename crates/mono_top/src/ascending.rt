// The rows and the columns of a tableau in the ascending order of their arcs' numbers.
ghost use Rattle.std.specs.Prelude.{◌≡◌, ◌+◌, ◌<◌, length, IfOk};
ghost use Rattle.mono_top.specs.Ascending.{AreAscending, AreOnce};

use net_incidence::ArcId;
use std::alloc::{AllocError, Global};
use tucker_tableau::Tableau;

/// The places of the rows.
pub(crate) fn ascending_rows(alloc: Global, tableau: &Tableau) -> Result<Vec<usize>, AllocError>
    requires { AreOnce tableau.now.rows (length tableau.now.rows + length tableau.now.columns) }
    ensures { IfOk result (λ places. AreAscending tableau.now.rows places.items) }
{
    let mut places = Vec::new(alloc);
    let arcs = tableau.rows() + tableau.columns();
    for arc in 0..arcs {
        if let Some(i) = tableau.row_of(ArcId(arc as u32)) {
            places.push(i)?;
        }
    }
    Ok(places)
}

/// The places of the columns.
pub(crate) fn ascending_columns(alloc: Global, tableau: &Tableau) -> Result<Vec<usize>, AllocError>
    requires { AreOnce tableau.now.columns (length tableau.now.rows + length tableau.now.columns) }
    ensures { IfOk result (λ places. AreAscending tableau.now.columns places.items) }
{
    let mut places = Vec::new(alloc);
    let arcs = tableau.rows() + tableau.columns();
    for arc in 0..arcs {
        if let Some(j) = tableau.column_of(ArcId(arc as u32)) {
            places.push(j)?;
        }
    }
    Ok(places)
}

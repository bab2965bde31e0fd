// Arcs in a list: the place of one, and two lists that exchange one arc each.
ghost use Rattle.std.specs.Prelude.{◌≡◌, ℕ, ◌<◌, length, slice_set, MatchOption};
ghost use Rattle.tucker_tableau.specs.Tableau.{number};
ghost use Rattle.tucker_tableau.specs.Places.{IsNowhere, IsAt};

/// The place of an arc.
pub fn place_of(arcs: &[u32], arc: u32) -> Option<usize>
    ensures { MatchOption result (IsNowhere arcs.now arc) (IsAt arcs.now arc) }
{
    for k in 0..arcs.len() {
        if arcs[k] == arc {
            return Some(k);
        }
    }
    None
}

/// The arcs of a row and a column change places.
pub fn exchange_arcs(rows: &mut [u32], columns: &mut [u32], r: usize, s: usize)
    requires row { r < length rows.old }
    requires column { s < length columns.old }
    ensures rows { rows.new ≡ slice_set rows.old r (number columns.old s) }
    ensures columns { columns.new ≡ slice_set columns.old s (number rows.old r) }
{
    let out = rows[r];
    rows[r] = columns[s];
    columns[s] = out;
}

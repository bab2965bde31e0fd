// Entries in one list, row after row: the pivot of them, and marks of single ones. A row whose entry in the pivot's column
// is 0 is not touched.
ghost use Rattle.std.specs.Prelude.{◌≡◌, ◌≢◌, ℕ, ◌+◌, ◌*◌, ◌<◌, ◌≤◌, ◌-ℤ◌, ◌*ℤ◌, neg_ℤ, length};
ghost use Rattle.tucker_tableau.specs.Table.{cell};
ghost use Rattle.tucker_tableau.specs.Cells.{IsUnit, AreUnits, IsLessRow, IsScaledRow, IsRowPivoted, IsTablePivoted, IsMarked};

/// The entries after the pivot on row `r` and column `s`.
pub fn exchange_entries(table: &mut [i8], height: usize, width: usize, r: usize, s: usize)
    requires size { length table.old ≡ height * width }
    requires row { r < height }
    requires column { s < width }
    requires units { (i : ℕ) → i < height → AreUnits width table.old i }
    ensures { IsTablePivoted height width table.old table.new r s }
{
    for i in 0..height {
        if i != r {
            exchange_row(table, width, r, s, i);
        }
    }
    scale_row(table, width, r, s);
}

/// A row off the pivot's row.
fn exchange_row(table: &mut [i8], width: usize, r: usize, s: usize, i: usize)
    requires pivot_row { r * width + width ≤ length table.old }
    requires row { i * width + width ≤ length table.old }
    requires column { s < width }
    requires apart { i ≢ r }
    requires pivot_units { AreUnits width table.old r }
    requires units { AreUnits width table.old i }
    ensures { IsRowPivoted width table.old table.new r s i }
{
    let passing = table[i * width + s];
    if passing != 0 {
        let factor = times(table[r * width + s], passing);
        subtract_row(table, width, r, i, factor);
        table[i * width + s] = factor;
    }
}

/// Takes a multiple of row `r` from row `i`.
fn subtract_row(table: &mut [i8], width: usize, r: usize, i: usize, factor: i8)
    requires pivot_row { r * width + width ≤ length table.old }
    requires row { i * width + width ≤ length table.old }
    requires apart { i ≢ r }
    requires pivot_units { AreUnits width table.old r }
    requires units { AreUnits width table.old i }
    requires factor { IsUnit factor }
    ensures { IsLessRow width table.old table.new r i factor width }
{
    for j in 0..width {
        table[i * width + j] = less(table[i * width + j], factor, table[r * width + j]);
    }
}

/// The pivot's own row.
fn scale_row(table: &mut [i8], width: usize, r: usize, s: usize)
    requires row { r * width + width ≤ length table.old }
    requires column { s < width }
    requires units { AreUnits width table.old r }
    ensures { IsRowPivoted width table.old table.new r s r }
{
    let p = table[r * width + s];
    turn_row(table, width, r, p);
    table[r * width + s] = p;
}

/// Takes the row times `-p`.
fn turn_row(table: &mut [i8], width: usize, r: usize, p: i8)
    requires row { r * width + width ≤ length table.old }
    requires units { AreUnits width table.old r }
    requires factor { IsUnit p }
    ensures { IsScaledRow width table.old table.new r p width }
{
    for j in 0..width {
        table[r * width + j] = opposite(p, table[r * width + j]);
    }
}

fn times(p: i8, x: i8) -> i8
    requires factor { IsUnit p }
    requires number { IsUnit x }
    ensures value { result ≡ p *ℤ x }
    ensures unit { IsUnit result }
{
    p * x
}

fn opposite(p: i8, x: i8) -> i8
    requires factor { IsUnit p }
    requires number { IsUnit x }
    ensures { result ≡ neg_ℤ (p *ℤ x) }
{
    -(p * x)
}

fn less(x: i8, factor: i8, y: i8) -> i8
    requires number { IsUnit x }
    requires factor { IsUnit factor }
    requires taken { IsUnit y }
    ensures { result ≡ x -ℤ factor *ℤ y }
{
    x - factor * y
}

/// Writes a number at a column, in the row of a node; the ground has no row.
pub fn mark(table: &mut [i8], width: usize, node: usize, column: usize, value: i8)
    requires row { node * width ≤ length table.old }
    requires column { column < width }
    ensures { IsMarked width table.old table.new node column value }
{
    if node > 0 {
        table[(node - 1) * width + column] = value;
    }
}

/// One entry.
pub fn at(table: &[i8], width: usize, i: usize, j: usize) -> i8
    requires row { i * width + width ≤ length table.now }
    requires column { j < width }
    requires unit { IsUnit (cell table.now width i j) }
    ensures value { result ≡ cell table.now width i j }
    ensures unit { IsUnit result }
{
    table[i * width + j]
}

// The tableau type: how it is made and read.
ghost use Rattle.std.specs.Prelude.{◌↔◌, ◌≤◌, length, IfOk, IsTrue};
ghost use Rattle.tucker_tableau.specs.Table.{IsTableauOf};
ghost use Rattle.tucker_tableau.specs.First.{IsFirst};
ghost use Rattle.tucker_tableau.specs.Kept.{IsTooBig, tableau_arcs_most};
ghost use Rattle.tucker_tableau.specs.Lead.{IsGroundTree};

use crate::entries::at;
use crate::fault::TabFault;
use crate::first::{numbers, star_entries};
use crate::places::place_of;
use ground_net::Grounded;
use net_incidence::ArcId;
use std::alloc::{AllocError, Global};
use std::marker::Model;

/// The most nodes of a network whose tableau is made.
pub const NODES_MOST: usize = 200;

/// The most arcs of a network whose tableau is made.
pub const ARCS_MOST: usize = 2_000;

/// The tableau of a spanning tree: a row for each arc of the tree, a column for each other arc, and an entry for each
/// row and column.
#[derive(Drop)]
pub struct Tableau {
    pub(crate) rows: Vec<u32>,
    pub(crate) columns: Vec<u32>,
    // row after row
    pub(crate) entries: Vec<i8>,
}

impl Model for Tableau {
    ghost use Rattle.tucker_tableau.specs.Table.{Table};
    ghost use Rattle.tucker_tableau.specs.Kept.{IsKept};

    ghost Value = { Table };

    ghost view = { λ t. record { rows = t.rows.items; columns = t.columns.items; entries = t.entries.items } };

    ghost invariant = { λ t. IsKept (record { rows = t.rows.items; columns = t.columns.items; entries = t.entries.items }) };
}

impl Tableau {
    ghost use Rattle.std.specs.Prelude.{◌≡◌, ◌↔◌, ℕ, ◌+◌, ◌<◌, ◌≤◌, length, IfOk, IsErrOf, MatchOption};
    ghost use Rattle.tucker_tableau.specs.Tableau.{number};
    ghost use Rattle.tucker_tableau.specs.Table.{entry, IsTableauOf};
    ghost use Rattle.tucker_tableau.specs.First.{IsFirst};
    ghost use Rattle.tucker_tableau.specs.Kept.{IsTooBig, tableau_arcs_most};
    ghost use Rattle.tucker_tableau.specs.Lead.{IsGroundTree};
    ghost use Rattle.tucker_tableau.specs.Cells.{IsUnit};
    ghost use Rattle.tucker_tableau.specs.Places.{IsNowhere, IsAt};

    /// The tableau of the ground's arcs.
    pub fn of(alloc: Global, g: &Grounded) -> Result<Tableau, TabFault>
        ensures too_big { IsErrOf result TabFault.TooBig ↔ IsTooBig g.now.network }
        ensures first { IfOk result (IsFirst g.now.network) }
        ensures ground { IfOk result IsGroundTree }
        ensures tableau { IfOk result (IsTableauOf g.now.network) }
    {
        if is_too_big(g) {
            return Err(TabFault::TooBig);
        }
        match first(alloc, g) {
            Ok(tableau) => Ok(tableau),
            Err(AllocError) => Err(TabFault::NoMemory),
        }
    }

    pub fn rows(&self) -> usize
        ensures count { result ≡ length self.now.rows }
        ensures few { length self.now.rows + length self.now.columns ≤ tableau_arcs_most }
    {
        self.rows.len()
    }

    pub fn columns(&self) -> usize
        ensures { result ≡ length self.now.columns }
    {
        self.columns.len()
    }

    pub fn row_arc(&self, i: usize) -> ArcId
        requires { i < length self.now.rows }
        ensures { result.0 ≡ number self.now.rows i }
    {
        ArcId(self.rows[i])
    }

    pub fn column_arc(&self, j: usize) -> ArcId
        requires { j < length self.now.columns }
        ensures { result.0 ≡ number self.now.columns j }
    {
        ArcId(self.columns[j])
    }

    /// The row of an arc of the tree.
    pub fn row_of(&self, arc: ArcId) -> Option<usize>
        ensures { MatchOption result (IsNowhere self.now.rows arc.0) (IsAt self.now.rows arc.0) }
    {
        place_of(self.rows.as_slice(), arc.0)
    }

    /// The column of an arc off the tree.
    pub fn column_of(&self, arc: ArcId) -> Option<usize>
        ensures { MatchOption result (IsNowhere self.now.columns arc.0) (IsAt self.now.columns arc.0) }
    {
        place_of(self.columns.as_slice(), arc.0)
    }

    pub fn entry(&self, i: usize, j: usize) -> i8
        requires row { i < length self.now.rows }
        requires column { j < length self.now.columns }
        ensures value { result ≡ entry self.now i j }
        ensures unit { IsUnit result }
    {
        at(self.entries.as_slice(), self.columns.len(), i, j)
    }
}

/// Whether the network has too many nodes or arcs.
fn is_too_big(g: &Grounded) -> bool
    ensures { IsTrue result ↔ IsTooBig g.now.network }
{
    if g.net().nodes() > NODES_MOST {
        return true;
    }
    g.net().arcs() > ARCS_MOST
}

/// The tableau of the ground's arcs, of a network that is small enough.
fn first(alloc: Global, g: &Grounded) -> Result<Tableau, AllocError>
    requires { length g.now.network.arcs ≤ tableau_arcs_most }
    ensures first { IfOk result (IsFirst g.now.network) }
    ensures ground { IfOk result IsGroundTree }
    ensures tableau { IfOk result (IsTableauOf g.now.network) }
{
    let net = g.net();
    let rows = net.nodes() - 1;
    let columns = net.arcs() - rows;
    let entries = star_entries(alloc, net, rows, columns)?;
    Ok(Tableau {
        rows: numbers(alloc, 0, rows)?,
        columns: numbers(alloc, rows, columns)?,
        entries,
    })
}

// The pivots that bring the arcs of the model into the tree, in the order of their numbers.
ghost use Rattle.std.specs.Prelude.{◌≡◌};

use crate::tableau::Tableau;
use net_incidence::ArcId;

impl Tableau {
    ghost use Rattle.std.specs.Prelude.{◌≡◌, ◌≢◌, ◌↔◌, ℕ, ◌+◌, ◌<◌, pos, length, IsTrue};
    ghost use Rattle.theory.specs.Network.{Network, IsNetwork};
    ghost use Rattle.tucker_tableau.specs.Tableau.{number};
    ghost use Rattle.tucker_tableau.specs.Table.{entry, IsTableauOf};
    ghost use Rattle.tucker_tableau.specs.Lead.{IsGroundTree, IsModelNetwork, IsLed};
    ghost use Rattle.tucker_tableau.specs.Leading.{IsBest, IsLookedAt, KeepsTableau};

    /// Takes each model arc into the tree that closes no circuit with those taken before. Of the ground arcs that pass
    /// in its column the one with the greatest number leaves.
    pub fn lead(&mut self)
        requires { IsGroundTree self.old }
        ensures rows { length self.new.rows ≡ length self.old.rows }
        ensures columns { length self.new.columns ≡ length self.old.columns }
        ensures tableau { (net : Network) → IsNetwork net → IsTableauOf net self.old → IsTableauOf net self.new }
        ensures led { (net : Network) → IsNetwork net → IsModelNetwork net (length self.old.rows) → IsTableauOf net self.old
            → IsLed net (length self.old.rows) self.new.rows }
    {
        let ground = self.rows();
        let arcs = ground + self.columns();
        for arc in ground..arcs {
            self.look_at(ArcId(arc as u32));
        }
    }

    /// Looks at one arc.
    fn look_at(&mut self, arc: ArcId)
        ensures looked_at { IsLookedAt self.old self.new arc.0 }
        ensures tableau { KeepsTableau self.old self.new }
    {
        if let Some(j) = self.column_of(arc) {
            if let Some(i) = self.greatest_ground(j) {
                self.exchange(i, j);
            }
        }
    }

    /// The row with the greatest ground arc that passes in the column.
    fn greatest_ground(&self, column: usize) -> Option<usize>
        requires { column < length self.now.columns }
        ensures { IsBest self.now column (length self.now.rows) result }
    {
        let mut best = None;
        for i in 0..self.rows() {
            best = self.better(best, i, column);
        }
        best
    }

    /// The best row when row `i` is seen too.
    fn better(&self, best: Option<usize>, i: usize, column: usize) -> Option<usize>
        requires row { i < length self.now.rows }
        requires column { column < length self.now.columns }
        requires before { IsBest self.now column i best }
        ensures { IsBest self.now column (i + 1) result }
    {
        if !self.passes(i, column) {
            return best;
        }
        match best {
            None => Some(i),
            Some(so_far) => {
                if self.row_arc(so_far) < self.row_arc(i) {
                    Some(i)
                } else {
                    Some(so_far)
                }
            }
        }
    }

    /// Whether the row has a ground arc and passes in the column.
    fn passes(&self, i: usize, column: usize) -> bool
        requires row { i < length self.now.rows }
        requires column { column < length self.now.columns }
        ensures { IsTrue result ↔ ((number self.now.rows i < length self.now.rows) × (entry self.now i column ≢ pos 0)) }
    {
        if self.row_arc(i).0 as usize >= self.rows() {
            return false;
        }
        self.entry(i, column) != 0
    }
}

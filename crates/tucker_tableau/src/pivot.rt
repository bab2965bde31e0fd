// Pivots.
ghost use Rattle.std.specs.Prelude.{◌≡◌};

use crate::entries::exchange_entries;
use crate::fault::ZeroEntry;
use crate::places::exchange_arcs;
use crate::tableau::Tableau;

impl Tableau {
    ghost use Rattle.std.specs.Prelude.{◌≡◌, ◌≢◌, ◌↔◌, ◌<◌, pos, length, OnOk, OnErr, IsErr};
    ghost use Rattle.theory.specs.Network.{Network, IsNetwork};
    ghost use Rattle.tucker_tableau.specs.Table.{Table, entry, IsTableauOf};
    ghost use Rattle.tucker_tableau.specs.Pivoted.{IsPivoted};

    /// The arcs of row `i` and column `j` change places, and all else of the order stays.
    pub fn pivot(&mut self, i: usize, j: usize) -> Result<(), ZeroEntry>
        requires row { i < length self.old.rows }
        requires column { j < length self.old.columns }
        ensures zero_entry { IsErr result ↔ (entry self.old i j ≡ pos 0) }
        ensures exchanged { OnOk result (IsPivoted self.old self.new i j) }
        ensures err { OnErr result (self.new ≡ self.old) }
        ensures again { OnOk result ((next : Table) → IsPivoted self.new next i j → next ≡ self.old) }
        ensures tableau { (net : Network) → IsNetwork net → IsTableauOf net self.old → IsTableauOf net self.new }
    {
        if self.entry(i, j) == 0 {
            return Err(ZeroEntry);
        }
        self.exchange(i, j);
        Ok(())
    }

    /// The pivot where the entry is not 0.
    pub(crate) fn exchange(&mut self, i: usize, j: usize)
        requires row { i < length self.old.rows }
        requires column { j < length self.old.columns }
        requires passes { entry self.old i j ≢ pos 0 }
        ensures exchanged { IsPivoted self.old self.new i j }
        ensures again { (next : Table) → IsPivoted self.new next i j → next ≡ self.old }
        ensures tableau { (net : Network) → IsNetwork net → IsTableauOf net self.old → IsTableauOf net self.new }
    {
        let height = self.rows.len();
        let width = self.columns.len();
        exchange_entries(&mut self.entries, height, width, i, j);
        exchange_arcs(&mut self.rows, &mut self.columns, i, j);
    }
}

// Changes of curves, one after the other.
ghost use Rattle.std.specs.Prelude.{◌≡◌, ◌≤◌, ◌∷◌, ◌++◌, [], length, nat_le, IfSome, IsNone, ◌↔◌, OnOk};

use mono_curve::Curve;
use net_incidence::ArcId;
use std::alloc::{AllocError, Global};
use std::collections::VecDeque;
use std::marker::Model;

/// The most changes of a text.
pub const CHANGES_MOST: usize = 1_000;

/// A curve that is put in the place of that of a grounded arc, and the line that says so, counted from 1.
#[derive(Drop)]
pub struct Change {
    pub arc: ArcId,
    pub curve: Curve,
    pub line: u32,
}

/// The changes that a text spells, in the order of its lines. Contracts see them as a list.
#[derive(Drop)]
pub struct Changes {
    queue: VecDeque<Change>,
}

impl Model for Changes {
    ghost use Rattle.std.specs.Prelude.{List, map};
    ghost use Rattle.warm_solve.specs.ChangesText.{Change as Listed};
    ghost use Rattle.warm_solve.specs.HeldChanges.{shown};

    ghost Value = { List Listed };

    ghost view = { λ changes. map shown changes.queue.items };
}

impl Changes {
    ghost use Rattle.warm_solve.specs.ChangesText.{has_all};
    ghost use Rattle.warm_solve.specs.HeldChanges.{shown};

    pub(crate) fn new(alloc: Global) -> Changes
        ensures { result ≡ [] }
    {
        Changes {
            queue: VecDeque::new(alloc),
        }
    }

    pub(crate) fn is_full(&self) -> bool
        ensures { result ≡ has_all (length self.now) }
    {
        self.queue.len() >= CHANGES_MOST
    }

    pub(crate) fn push(&mut self, change: Change) -> Result<(), AllocError>
        ensures { OnOk result (self.new ≡ self.old ++ shown change ∷ []) }
    {
        self.queue.push_back(change).map_err(|_| AllocError)
    }

    /// The first change, which is taken out, or nothing where there is none left.
    pub fn take(&mut self) -> Option<Change>
        ensures first { IfSome result (λ change. self.old ≡ shown change ∷ self.new) }
        ensures none { IsNone result ↔ (self.old ≡ []) }
    {
        self.queue.pop_front()
    }
}

// Which walks are circuits.
ghost use Rattle.std.specs.Prelude.{◌≡◌, ◌↔◌, ◌+◌, ◌^◌, ◌<◌, length, IsTrue, IsNone, IfSome};
ghost use Rattle.theory.specs.Circuit.{IsCircuit, WalkIsThere};
ghost use Rattle.net_incidence.specs.Graph.{bare};
ghost use Rattle.net_incidence.specs.BadStep.{IsMetAgain, IsBadStep, IsClosed, IsFault};

use crate::net::Net;
use theory::Step;

impl Net {
    /// None where the walk is a circuit. Otherwise the number of the first bad step, counted from 1, or the number of
    /// steps plus 1 where no step is bad. It takes no memory: each step is held against all before it, so it costs the
    /// square of the number of good steps, and a walk that begins from no node twice has at most as many as there are nodes.
    pub fn is_circuit(&self, walk: &[Step]) -> Option<u32>
        requires there { WalkIsThere (bare self.now) walk.now }
        requires short { length walk.now < 2 ^ 31 }
        ensures circuit { IsNone result ↔ IsCircuit (bare self.now) walk.now }
        ensures fault { IfSome result (IsFault (bare self.now) walk.now) }
    {
        for k in 0..walk.len() {
            if self.is_bad_step(walk, k) {
                return Some(k as u32 + 1);
            }
        }
        if self.is_closed(walk) {
            None
        } else {
            Some(walk.len() as u32 + 1)
        }
    }

    fn is_bad_step(&self, walk: &[Step], k: usize) -> bool
        requires there { WalkIsThere (bare self.now) walk.now }
        requires in_walk { k < length walk.now }
        ensures { IsTrue result ↔ IsBadStep (bare self.now) walk.now k }
    {
        if k == 0 {
            return false;
        }
        self.end(walk[k - 1]) != self.begin(walk[k]) || self.is_met_again(walk, k)
    }

    /// Whether an earlier step begins at the same node or passes the same arc.
    fn is_met_again(&self, walk: &[Step], k: usize) -> bool
        requires there { WalkIsThere (bare self.now) walk.now }
        requires in_walk { k < length walk.now }
        ensures { IsTrue result ↔ IsMetAgain (bare self.now) walk.now k }
    {
        let begin = self.begin(walk[k]);
        let arc = walk[k].arc;
        for i in 0..k {
            if walk[i].arc == arc || self.begin(walk[i]) == begin {
                return true;
            }
        }
        false
    }

    /// Whether there is a step, and the last one ends where the first begins.
    fn is_closed(&self, walk: &[Step]) -> bool
        requires { WalkIsThere (bare self.now) walk.now }
        ensures { IsTrue result ↔ IsClosed (bare self.now) walk.now }
    {
        !walk.is_empty() && self.end(walk[walk.len() - 1]) == self.begin(walk[0])
    }
}

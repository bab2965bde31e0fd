// One pivot: a lane goes along its curve as far as its tension allows, round the cycle that it closes with the tree. At
// most four readings.
ghost use Rattle.quick_start.specs.Spent.{IsSpent};

use crate::feed::{Ends, Feed};
use crate::sketch::Sketch;
use crate::tables::{FAR, NONE, minus};
use crate::tree::{Bond, Meeting, Side, seen_from};
use mono_curve::{Monotone, Steps};
use std::sync::ledger::Ledger;

/// A lane that is about to move: its flow runs from the first node to the second one, up to the goal, where the tension
/// is between its slopes.
#[derive(Clone, Copy)]
pub(crate) struct Entry {
    pub(crate) lane: u32,
    arc: u32,
    forward: bool,
    first: u32,
    second: u32,
    flow: i64,
    goal: i64,
    room: i64,
}

impl Sketch {
    /// Moves the lane. The result is where the cycle joins if nothing stops it; then nothing has moved.
    pub(crate) fn pivot<C: Monotone, L: Ledger>(
        &mut self,
        lane: u32,
        feed: &mut Feed<C>,
        steps: &mut Steps<L>,
    ) -> Option<u32>
        ensures { IsSpent feed.old.fuel steps.old feed.new.fuel steps.new }
    {
        let entry = self.entry(lane, feed, steps);
        let meeting = self.tree.meet(entry.first, entry.second, entry.room);
        feed.spend(meeting.length, steps);
        if meeting.amount >= FAR / 2 {
            return Some(meeting.join);
        }
        if meeting.side == Side::Neither {
            self.flip(entry, meeting, feed, steps);
        } else {
            self.exchange(entry, meeting, feed, steps);
        }
        None
    }

    /// All breakpoints up to the goal are passed with one reading.
    fn entry<C: Monotone, L: Ledger>(
        &self,
        lane: u32,
        feed: &mut Feed<C>,
        steps: &mut Steps<L>,
    ) -> Entry
        ensures { IsSpent feed.old.fuel steps.old feed.new.fuel steps.new }
    {
        let ends = self.lanes.lane(lane);
        let arc = self.lanes.arc(lane);
        let flow = self.lanes.flows.at(arc);
        let tension = self.tree.rise(ends.from, ends.to);
        let range = feed.range(arc, tension, steps);
        let forward = tension > ends.right;
        let (first, second, goal) = if forward {
            (ends.from, ends.to, range.low)
        } else {
            (ends.to, ends.from, range.high)
        };
        let ahead = goal.wrapping_sub(flow);
        let room = if forward { ahead } else { minus(ahead) };
        Entry {
            lane,
            arc,
            forward,
            first,
            second,
            flow,
            goal,
            room,
        }
    }

    /// The lane comes to its goal, and the tree stays.
    fn flip<C: Monotone, L: Ledger>(
        &mut self,
        entry: Entry,
        meeting: Meeting,
        feed: &mut Feed<C>,
        steps: &mut Steps<L>,
    )
        ensures { IsSpent feed.old.fuel steps.old feed.new.fuel steps.new }
    {
        let down = minus(meeting.amount);
        self.tree.add_up(entry.first, meeting.join, down, 0);
        self.tree
            .add_up(entry.second, meeting.join, meeting.amount, 0);
        self.lanes.put(entry.lane, entry.goal, feed, steps);
    }

    /// The lane comes into the tree, in the place of the bond that stops the cycle.
    fn exchange<C: Monotone, L: Ledger>(
        &mut self,
        entry: Entry,
        meeting: Meeting,
        feed: &mut Feed<C>,
        steps: &mut Steps<L>,
    )
        ensures { IsSpent feed.old.fuel steps.old feed.new.fuel steps.new }
    {
        let on_first = meeting.side == Side::First;
        let amount = meeting.amount;
        let (near, far, along) = if on_first {
            (entry.first, entry.second, minus(amount))
        } else {
            (entry.second, entry.first, amount)
        };
        let moved = if entry.forward { amount } else { minus(amount) };
        let flow = entry.flow.wrapping_add(moved);
        let slope = self.slope_to_root(entry, on_first, flow, feed, steps);
        let piece = feed.range(entry.arc, slope, steps);
        self.move_round(near, far, meeting, along);
        self.let_go(meeting.leaver, feed, steps);
        self.lanes.hold(entry.lane);
        // The lane leads from the first node to the second one if its flow grows.
        let up = entry.forward == on_first;
        let bond = Bond {
            lane: entry.lane,
            up,
        };
        let rise = self.tree.rise(near, far);
        let height = rise.wrapping_add(if up { minus(slope) } else { slope });
        let twig = seen_from(far, flow, piece, up);
        self.tree.rehang(near, meeting.leaver, twig, bond);
        let lifted = self.tree.lift(near, height);
        feed.spend(lifted, steps);
    }

    /// The slope of the lane's piece that has room for flow to the root.
    fn slope_to_root<C: Monotone, L: Ledger>(
        &self,
        entry: Entry,
        on_first: bool,
        flow: i64,
        feed: &mut Feed<C>,
        steps: &mut Steps<L>,
    ) -> i64
        ensures { IsSpent feed.old.fuel steps.old feed.new.fuel steps.new }
    {
        let Ends { low, high } = feed.slopes(entry.arc, flow, steps);
        let (wanted, other) = if entry.forward == on_first {
            (high, low)
        } else {
            (low, high)
        };
        if -FAR < wanted && wanted < FAR {
            wanted
        } else {
            other
        }
    }

    /// Moves the amount round the cycle, and the size of the leaver's subtree from its side to the other one.
    fn move_round(&mut self, near: u32, far: u32, meeting: Meeting, along: i64) {
        let leaver = self.tree.twig(meeting.leaver);
        let less = 0u32.wrapping_sub(leaver.size);
        self.tree.add_up(near, leaver.parent, along, 0);
        self.tree.add_up(leaver.parent, meeting.join, along, less);
        self.tree
            .add_up(far, meeting.join, minus(along), leaver.size);
    }

    /// Lets the node's bond out of the tree; an artificial arc is gone for good.
    fn let_go<C: Monotone, L: Ledger>(
        &mut self,
        node: u32,
        feed: &mut Feed<C>,
        steps: &mut Steps<L>,
    )
        ensures { IsSpent feed.old.fuel steps.old feed.new.fuel steps.new }
    {
        let lane = self.tree.bond(node).lane;
        if lane != NONE {
            let flow = self.tree.flow_of(node);
            self.lanes.put(lane, flow, feed, steps);
        }
    }
}

// Lanes: the arcs whose flow can move, each with the slopes on the two sides of its flow. They are what pricing goes
// over, so they stand in an order in which neighbours seldom share a node.
ghost use Rattle.quick_start.specs.Spent.{IsSpent};

use crate::feed::{Ends, Feed};
use crate::tables::{FAR, NONE, Table};
use mono_curve::{Monotone, Steps};
use std::alloc::{AllocError, Global};
use std::sync::ledger::Ledger;

#[derive(Clone, Copy)]
pub(crate) struct Lane {
    pub(crate) from: u32,
    pub(crate) to: u32,
    // The slopes on the left and on the right of the flow. A lane of the tree has infinite ones, so that pricing passes
    // it over.
    pub(crate) left: i64,
    pub(crate) right: i64,
}

/// The lanes, and a flow for each arc. The flow of a lane of the tree stands in the tree.
#[derive(Drop)]
pub(crate) struct Lanes {
    pub(crate) count: u32,
    lanes: Table<Lane>,
    // The arc of a lane, and the lane of an arc.
    arcs: Table<u32>,
    numbers: Table<u32>,
    pub(crate) flows: Table<i64>,
}

impl Lanes {
    pub(crate) fn take(alloc: Global, arcs: usize) -> Result<Lanes, AllocError> {
        let blank = Lane {
            from: 0,
            to: 0,
            left: -FAR,
            right: FAR,
        };
        Ok(Lanes {
            count: 0,
            lanes: Table::take(alloc, arcs, blank)?,
            arcs: Table::take(alloc, arcs, 0)?,
            numbers: Table::take(alloc, arcs, NONE)?,
            flows: Table::take(alloc, arcs, 0)?,
        })
    }

    pub(crate) fn lane(&self, lane: u32) -> Lane {
        self.lanes.at(lane)
    }

    pub(crate) fn part(&self, begin: u32, end: u32) -> &[Lane] {
        self.lanes.part(begin, end)
    }

    pub(crate) fn arc(&self, lane: u32) -> u32 {
        self.arcs.at(lane)
    }

    /// The lane of the arc; `NONE` where its flow cannot move.
    pub(crate) fn number(&self, arc: u32) -> u32 {
        self.numbers.at(arc)
    }

    /// Begins with no lane for the arc.
    pub(crate) fn leave_out(&mut self, arc: u32) {
        self.numbers.set(arc, NONE);
    }

    /// Gives the lane to the arc, with the slopes at the arc's flow.
    pub(crate) fn open(&mut self, lane: u32, arc: u32, ends: (u32, u32), slopes: Ends) {
        let (from, to) = ends;
        self.arcs.set(lane, arc);
        self.numbers.set(arc, lane);
        self.lanes.set(
            lane,
            Lane {
                from,
                to,
                left: slopes.low,
                right: slopes.high,
            },
        );
    }

    /// Puts the lane at a flow, out of the tree.
    pub(crate) fn put<C: Monotone, L: Ledger>(
        &mut self,
        lane: u32,
        flow: i64,
        feed: &mut Feed<C>,
        steps: &mut Steps<L>,
    )
        ensures { IsSpent feed.old.fuel steps.old feed.new.fuel steps.new }
    {
        let arc = self.arcs.at(lane);
        let slopes = feed.slopes(arc, flow, steps);
        let old = self.lanes.at(lane);
        self.flows.set(arc, flow);
        self.lanes.set(
            lane,
            Lane {
                left: slopes.low,
                right: slopes.high,
                ..old
            },
        );
    }

    /// Keeps the lane from entering the tree.
    pub(crate) fn hold(&mut self, lane: u32) {
        let old = self.lanes.at(lane);
        self.lanes.set(
            lane,
            Lane {
                left: -FAR,
                right: FAR,
                ..old
            },
        );
    }
}

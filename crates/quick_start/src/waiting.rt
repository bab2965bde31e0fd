// Nodes that wait, each at a distance: a binary heap that knows the place of each node.
use crate::tables::{NONE, Table};
use std::alloc::{AllocError, Global};

#[derive(Drop)]
pub(crate) struct Waiting {
    count: u32,
    heap: Table<u32>,
    // The place of a node in the heap, `NONE` where it does not wait.
    places: Table<u32>,
    distances: Table<i64>,
}

impl Waiting {
    pub(crate) fn take(alloc: Global, nodes: usize) -> Result<Waiting, AllocError> {
        Ok(Waiting {
            count: 0,
            heap: Table::take(alloc, nodes, NONE)?,
            places: Table::take(alloc, nodes, NONE)?,
            distances: Table::take(alloc, nodes, 0)?,
        })
    }

    /// Leaves no node of the first ones waiting, each at the given distance.
    pub(crate) fn clear(&mut self, nodes: u32, distance: i64) {
        self.count = 0;
        for node in 0..nodes {
            self.places.set(node, NONE);
            self.distances.set(node, distance);
        }
    }

    pub(crate) fn distance(&self, node: u32) -> i64 {
        self.distances.at(node)
    }

    /// Lets the node wait at this distance, which is less than the one that it had.
    pub(crate) fn bring(&mut self, node: u32, distance: i64) {
        self.distances.set(node, distance);
        let mut place = self.places.at(node);
        if place == NONE {
            place = self.count;
            self.count = self.count.wrapping_add(1);
        }
        for _ in 0..64 {
            let above = place.wrapping_sub(1) / 2;
            let other = self.heap.at(above);
            if place == 0 || self.distances.at(other) <= distance {
                break;
            }
            self.seat(other, place);
            place = above;
        }
        self.seat(node, place);
    }

    /// Takes the nearest node out.
    pub(crate) fn pop(&mut self) -> Option<u32> {
        if self.count == 0 {
            return None;
        }
        let nearest = self.heap.at(0);
        self.count = self.count.wrapping_sub(1);
        self.places.set(nearest, NONE);
        if self.count > 0 {
            let node = self.heap.at(self.count);
            self.sink(node);
        }
        Some(nearest)
    }

    /// Seats the node from the top down.
    fn sink(&mut self, node: u32) {
        let distance = self.distances.at(node);
        let mut place = 0;
        for _ in 0..64 {
            let below = self.nearer_below(place);
            if below >= self.count {
                break;
            }
            let other = self.heap.at(below);
            if self.distances.at(other) >= distance {
                break;
            }
            self.seat(other, place);
            place = below;
        }
        self.seat(node, place);
    }

    /// The place below whose node is nearer.
    fn nearer_below(&self, place: u32) -> u32 {
        let left = place.wrapping_mul(2).wrapping_add(1);
        let right = left.wrapping_add(1);
        if right < self.count
            && self.distances.at(self.heap.at(right)) < self.distances.at(self.heap.at(left))
        {
            right
        } else {
            left
        }
    }

    fn seat(&mut self, node: u32, place: u32) {
        self.heap.set(place, node);
        self.places.set(node, place);
    }
}

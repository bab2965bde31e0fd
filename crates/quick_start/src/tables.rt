// Tables that may be read and written at any number: a number out of range reads the blank item, and a write there is
// lost. So no number has to be in range anywhere, and sums that wrap owe nothing either.
ghost use Rattle.theory.specs.Limits.{IsWithin};
ghost use Rattle.quick_start.specs.Drawn.{far};

use std::alloc::{AllocError, Global};

/// What stands for an infinite end, flow or slope.
pub(crate) const FAR: i64 = 1 << 60;

/// The number of no node and of no lane: beyond every table.
pub(crate) const NONE: u32 = u32::MAX;

#[derive(Drop)]
pub(crate) struct Table<T> {
    items: Vec<T>,
    blank: T,
}

impl<T: Copy> Table<T> {
    pub(crate) fn take(alloc: Global, count: usize, blank: T) -> Result<Table<T>, AllocError> {
        Ok(Table {
            items: vec![in alloc; blank; count]?,
            blank,
        })
    }

    pub(crate) fn at(&self, place: u32) -> T {
        let place = place as usize;
        if place < self.items.len() {
            self.items[place]
        } else {
            self.blank
        }
    }

    pub(crate) fn set(&mut self, place: u32, item: T) {
        let place = place as usize;
        if place < self.items.len() {
            self.items[place] = item;
        }
    }

    /// The items from one place up to another; none where there are no such places.
    pub(crate) fn part(&self, begin: u32, end: u32) -> &[T] {
        let (begin, end) = (begin as usize, end as usize);
        if begin <= end && end <= self.items.len() {
            &self.items[begin..end]
        } else {
            &self.items[..0]
        }
    }

    pub(crate) fn items(&self) -> &[T] {
        self.items.as_slice()
    }
}

/// The number on the other side of 0.
pub(crate) fn minus(number: i64) -> i64 {
    0i64.wrapping_sub(number)
}

/// The nearest number that is not beyond `FAR` on either side.
pub(crate) fn clamped(number: i64) -> i64
    ensures { IsWithin far result }
{
    if number > FAR {
        FAR
    } else if number < -FAR {
        -FAR
    } else {
        number
    }
}

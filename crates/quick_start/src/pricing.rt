// Which lane enters, and what artificial flow costs.
use crate::feed::Ends;
use crate::lanes::{Lane, Lanes};
use crate::tables::{FAR, NONE, minus};
use mono_curve::NUMBER_MOST;

/// The penalty of artificial flow, the gain that a lane has to have, and where pricing goes on.
#[derive(Drop)]
pub(crate) struct Prices {
    pub(crate) penalty: i64,
    // The greatest penalty. Above it no way through the net costs more.
    most: i64,
    pub(crate) threshold: i64,
    block: u32,
    place: u32,
}

/// The lane that gains most, and how many lanes were looked at.
#[derive(Clone, Copy)]
pub(crate) struct Choice {
    pub(crate) lane: u32,
    gain: i64,
    pub(crate) looks: u64,
}

/// The finite slopes that were met, without their signs.
#[derive(Clone, Copy)]
pub(crate) struct Slopes {
    sum: i64,
    count: i64,
}

impl Slopes {
    pub(crate) fn none() -> Slopes {
        Slopes { sum: 0, count: 0 }
    }

    /// With these two more, of which infinite ones don't count.
    pub(crate) fn and(self, more: Ends) -> Slopes {
        self.and_one(more.low).and_one(more.high)
    }

    fn and_one(self, slope: i64) -> Slopes {
        if slope <= -FAR || slope >= FAR {
            return self;
        }
        let size = if slope < 0 { minus(slope) } else { slope };
        Slopes {
            sum: self.sum.wrapping_add(size),
            count: self.count.wrapping_add(1),
        }
    }

    fn mean(self) -> i64 {
        if self.count > 0 {
            self.sum / self.count
        } else {
            0
        }
    }
}

impl Prices {
    pub(crate) fn new() -> Prices {
        Prices {
            penalty: 0,
            most: 0,
            threshold: 0,
            block: 0,
            place: 0,
        }
    }

    /// Begins with the mean of the slopes: a low penalty lets the first pivots follow the costs. At the greatest one the potentials of the two kinds of nodes, those whose excess stays and those that lack
    /// flow, are further apart than half of it, since ways through the net differ by at most a quarter.
    pub(crate) fn begin(&mut self, nodes: u32, lanes: u32, slopes: Slopes) {
        self.most = dearest_way(nodes).wrapping_mul(4);
        self.begin_at(slopes.mean().wrapping_add(1));
        self.block = root_of(lanes).wrapping_mul(2).max(10);
        self.place = 0;
    }

    /// Begins with this penalty instead.
    pub(crate) fn begin_at(&mut self, penalty: i64) {
        self.penalty = self.most.min(penalty);
        self.threshold = self.penalty / 64;
    }

    pub(crate) fn is_greatest(&self) -> bool {
        self.penalty >= self.most
    }

    /// Doubles the penalty, or makes it the greatest one. The result is how much was added.
    pub(crate) fn raise(&mut self, to_greatest: bool) -> i64 {
        let old = self.penalty;
        self.penalty = if to_greatest {
            self.most
        } else {
            self.most.min(old.wrapping_mul(2))
        };
        self.threshold = self.penalty / 64;
        self.penalty.wrapping_sub(old)
    }

    /// Lets smaller gains count.
    pub(crate) fn lower_threshold(&mut self) {
        self.threshold = if self.threshold > self.penalty / 1024 {
            self.threshold / 16
        } else {
            0
        };
    }

    /// Goes over the lanes block by block, from where it stopped last, until a block has one that gains enough. `NONE`
    /// where no lane has.
    pub(crate) fn choose(&mut self, lanes: &Lanes, potentials: &[i64]) -> Choice {
        let mut best = Choice {
            lane: NONE,
            gain: self.threshold,
            looks: 0,
        };
        let mut left = lanes.count;
        for _ in 0..lanes.count {
            let begin = self.place;
            let end = begin.wrapping_add(self.block).min(lanes.count);
            best = best_of(lanes.part(begin, end), begin, potentials, best);
            let passed = end.wrapping_sub(begin);
            best.looks = best.looks.wrapping_add(u64::from(passed));
            self.place = if end < lanes.count { end } else { 0 };
            if best.lane != NONE || left <= passed {
                break;
            }
            left = left.wrapping_sub(passed);
        }
        best
    }
}

/// No way through a net of this many nodes costs more.
pub(crate) fn dearest_way(nodes: u32) -> i64 {
    (NUMBER_MOST + 1).wrapping_mul(i64::from(nodes).wrapping_add(1))
}

/// The better of a choice and the best of these lanes, which are numbered from the first.
fn best_of(lanes: &[Lane], first: u32, potentials: &[i64], best: Choice) -> Choice {
    let mut best = best;
    let mut number = first;
    for lane in lanes {
        let tension = at(potentials, lane.to).wrapping_sub(at(potentials, lane.from));
        let above = tension.wrapping_sub(lane.right);
        let below = lane.left.wrapping_sub(tension);
        let gain = if above > below { above } else { below };
        if gain > best.gain {
            best.lane = number;
            best.gain = gain;
        }
        number = number.wrapping_add(1);
    }
    best
}

fn at(potentials: &[i64], node: u32) -> i64 {
    let place = node as usize;
    if place < potentials.len() {
        potentials[place]
    } else {
        0
    }
}

/// The whole part of the square root.
pub(crate) fn root_of(number: u32) -> u32 {
    let number = u64::from(number);
    let mut root = 0u32;
    for _ in 0..number {
        let next = u64::from(root).wrapping_add(1);
        if next.wrapping_mul(next) > number {
            break;
        }
        root = root.wrapping_add(1);
    }
    root
}

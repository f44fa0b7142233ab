// The least ratings of all lawful splits of a small sheet, by going through every list of stages.
ghost use Rattle.std.specs.Prelude.{◌+◌, ◌<◌, IfSome};

use super::costs::{Cost, Ratings, accelerated, processed};
use super::nets::{Net, holds};
use device::WhichKind;
use std::array;

// A set of operators as a stage: where its edges lead, and what it costs on each kind of device.
#[derive(Clone, Copy)]
pub(crate) struct Candidate {
    mask: u64,
    successors: u64,
    first: Option<Cost>,
    second: Cost,
}

// The stages so far: their operators, the devices that they leave, and their ratings.
#[derive(Clone, Copy)]
pub(crate) struct Walk {
    placed: u64,
    first: u8,
    second: u8,
    rated: Ratings,
}

#[derive(Drop)]
struct Search {
    all: u64,
    candidates: [Candidate; 32],
}

// The mask of all to which an edge leads from the mask.
fn successors(net: &Net, mask: u64) -> u64 {
    let mut successors = 0;
    for to in 0..64 {
        for from in 0..net.rows().len() {
            if holds(mask, from) && net.has_edge(from, to) {
                successors |= 1 << to;
            }
        }
    }
    successors
}

// The lesser of two, where either may be missing.
fn lesser(x: Option<Ratings>, y: Option<Ratings>) -> Option<Ratings> {
    match (x, y) {
        (Some(x), Some(y)) => Some(x.min(&y)),
        (x, None) => x,
        (None, y) => y,
    }
}

impl Candidate {
    pub(crate) fn new(net: &Net, limit: u32, mask: u64) -> Candidate {
        Candidate {
            mask,
            successors: successors(net, mask),
            first: accelerated(net, mask, limit),
            second: processed(net, mask),
        }
    }
}

impl Walk {
    pub(crate) fn new(net: &Net) -> Walk {
        Walk {
            placed: 0,
            first: net.k,
            second: net.l,
            rated: Ratings::START,
        }
    }

    // Whether this is a stage of operators not yet placed, from which no edge leads back to those that are.
    fn admits(&self, all: u64, stage: &Candidate) -> bool {
        stage.mask != 0
            && stage.mask & !all == 0
            && stage.mask & self.placed == 0
            && stage.successors & self.placed == 0
    }

    // The same with this stage on a device of a kind, where it fits and one is left.
    fn on(&self, kind: WhichKind, stage: &Candidate) -> Option<Walk>
        ensures { IfSome result (λ walk. walk.first + walk.second < self.now.first + self.now.second) }
    {
        let (first, second, cost) = match kind {
            WhichKind::First => (self.first.checked_sub(1)?, self.second, stage.first?),
            WhichKind::Second => (self.first, self.second.checked_sub(1)?, stage.second),
        };
        Some(Walk {
            placed: self.placed | stage.mask,
            first,
            second,
            rated: self.rated.with(cost),
        })
    }

    // The same, where the stage may follow.
    pub(crate) fn then(&self, all: u64, kind: WhichKind, stage: &Candidate) -> Option<Walk> {
        if self.admits(all, stage) {
            self.on(kind, stage)
        } else {
            None
        }
    }

    // The ratings, if all operators are placed.
    pub(crate) fn rated(&self, all: u64) -> Option<Ratings> {
        if self.placed == all {
            Some(self.rated)
        } else {
            None
        }
    }
}

impl Search {
    // The least ratings of all lists of stages that begin with these and place all operators.
    fn least_from(&self, walk: Walk) -> Option<Ratings> {
        if walk.placed == self.all {
            return Some(walk.rated);
        }
        let mut least = None;
        for stage in &self.candidates {
            if walk.admits(self.all, stage) {
                for kind in [WhichKind::First, WhichKind::Second] {
                    if let Some(next) = walk.on(kind, stage) {
                        least = lesser(least, self.least_from(next));
                    }
                }
            }
        }
        least
    }
}

// The least ratings of all lawful splits of a sheet of at most five operators; none where there is no lawful split.
pub(crate) fn least(net: &Net, limit: u32) -> Option<Ratings> {
    let search = Search {
        all: net.all(),
        candidates: array::from_fn(|mask| Candidate::new(net, limit, mask as u64)),
    };
    search.least_from(Walk::new(net))
}

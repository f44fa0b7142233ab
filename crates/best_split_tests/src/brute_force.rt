// The least ratings of all lawful splits of a draft, by going through every list of stages.
ghost use Rattle.std.specs.Prelude.{◌+◌, ◌<◌, IfSome};

use super::costs::{Cost, Drawn};
use super::drafts::Draft;
use device::WhichKind;
use std::array;

// Ratings on the three scales: the most ticks of a stage, all ticks, and the largest pair of ticks and link.
#[derive(Clone, Copy, PartialEq, Eq, Debug)]
pub(crate) struct Ratings {
    pub(crate) peak: u32,
    pub(crate) line: u64,
    pub(crate) pair: (u32, u32),
}

// A set of operators as a stage: where its edges lead, and what it costs on each kind of device.
#[derive(Clone, Copy)]
struct Candidate {
    set: u64,
    successors: u64,
    first: Option<Cost>,
    second: Option<Cost>,
}

// The stages so far: their operators, the devices that they leave, and their ratings.
#[derive(Clone, Copy)]
struct Walk {
    placed: u64,
    first: u8,
    second: u8,
    rated: Ratings,
}

#[derive(Drop)]
struct Search {
    all: u64,
    candidates: [Candidate; 64],
}

impl Ratings {
    fn with(&self, cost: Cost) -> Ratings {
        Ratings {
            peak: self.peak.max(cost.ticks),
            line: self.line.saturating_add(u64::from(cost.ticks)),
            pair: self.pair.max((cost.ticks, cost.link)),
        }
    }

    // The lesser of two on each scale.
    fn min(&self, other: &Ratings) -> Ratings {
        Ratings {
            peak: self.peak.min(other.peak),
            line: self.line.min(other.line),
            pair: self.pair.min(other.pair),
        }
    }
}

// The lesser of two, where either may be missing.
fn lesser(x: Option<Ratings>, y: Option<Ratings>) -> Option<Ratings> {
    match (x, y) {
        (Some(x), Some(y)) => Some(x.min(&y)),
        (x, None) => x,
        (None, y) => y,
    }
}

impl Candidate {
    fn new<K: Drawn, L: Drawn>(draft: &Draft, first: &K, second: &L, set: u64) -> Candidate {
        let successors = draft
            .rows()
            .iter()
            .filter(|row| row.is_in(set))
            .fold(0, |union, row| union | row.successors);
        Candidate {
            set,
            successors,
            first: first.cost(draft, set),
            second: second.cost(draft, set),
        }
    }

    // Whether it is a stage of operators not yet placed, from which no edge leads back to those that are.
    fn follows(&self, all: u64, placed: u64) -> bool {
        self.set != 0
            && self.set & !all == 0
            && self.set & placed == 0
            && self.successors & placed == 0
    }
}

impl Walk {
    // The same with this stage on a device of a kind, where it fits and one is left.
    fn on(&self, kind: WhichKind, stage: &Candidate) -> Option<Walk>
        ensures { IfSome result (λ walk. walk.first + walk.second < self.now.first + self.now.second) }
    {
        let (first, second, load) = match kind {
            WhichKind::First => (self.first.checked_sub(1)?, self.second, stage.first?),
            WhichKind::Second => (self.first, self.second.checked_sub(1)?, stage.second?),
        };
        Some(Walk {
            placed: self.placed | stage.set,
            first,
            second,
            rated: self.rated.with(load),
        })
    }
}

impl Search {
    // The least ratings of all lists of stages that begin with these and place all operators.
    fn least_from(&self, walk: Walk) -> Option<Ratings> {
        if walk.placed == self.all {
            return Some(walk.rated);
        }
        let mut least = None;
        for stage in &self.candidates {
            if stage.follows(self.all, walk.placed) {
                for kind in [WhichKind::First, WhichKind::Second] {
                    if let Some(next) = walk.on(kind, stage) {
                        least = lesser(least, self.least_from(next));
                    }
                }
            }
        }
        least
    }
}

// The least ratings of all lawful splits; none where there is no lawful split.
pub(crate) fn least<K: Drawn, L: Drawn>(draft: &Draft, first: &K, second: &L) -> Option<Ratings> {
    let search = Search {
        all: draft.all(),
        candidates: array::from_fn(|set| Candidate::new(draft, first, second, set as u64)),
    };
    search.least_from(Walk {
        placed: 0,
        first: draft.k,
        second: draft.l,
        rated: Ratings {
            peak: 0,
            line: 0,
            pair: (0, 0),
        },
    })
}

// What stages cost, and what lists of them rate, summed from the rules.
use super::nets::{Net, holds};
use scale::{Line, Pair, PairRating, Peak, Scale};

// The ticks of a stage, and those of them that move data.
#[derive(Clone, Copy)]
pub(crate) struct Cost {
    pub(crate) ticks: u32,
    pub(crate) link: u32,
}

// Ratings on the three scales: the most ticks of a stage, all ticks, and the largest pair of ticks and link.
#[derive(Clone, Copy, PartialEq, Eq, Debug)]
pub(crate) struct Ratings {
    pub(crate) peak: u32,
    pub(crate) line: u64,
    pub(crate) pair: (u32, u32),
}

// A scale, with its rating among the three.
pub(crate) trait Told: Scale + Copy {
    fn told(ratings: &Ratings) -> Self::Rating;
}

impl Told for Peak {
    fn told(ratings: &Ratings) -> u32 {
        ratings.peak
    }
}

impl Told for Line {
    fn told(ratings: &Ratings) -> u64 {
        ratings.line
    }
}

impl Told for Pair {
    fn told(ratings: &Ratings) -> PairRating {
        let (ticks, link) = ratings.pair;
        PairRating { ticks, link }
    }
}

impl Ratings {
    pub(crate) const START: Ratings = Ratings {
        peak: 0,
        line: 0,
        pair: (0, 0),
    };

    // The same with a stage more.
    pub(crate) fn with(&self, cost: Cost) -> Ratings {
        Ratings {
            peak: self.peak.max(cost.ticks),
            line: self.line.saturating_add(u64::from(cost.ticks)),
            pair: self.pair.max((cost.ticks, cost.link)),
        }
    }

    // The lesser of two on each scale.
    pub(crate) fn min(&self, other: &Ratings) -> Ratings {
        Ratings {
            peak: self.peak.min(other.peak),
            line: self.line.min(other.line),
            pair: self.pair.min(other.pair),
        }
    }
}

// Whether an edge leads from an operator to one that is in the mask, or to one that is not.
fn leads(net: &Net, from: usize, mask: u64, inside: bool) -> bool {
    let mut is_found = false;
    for to in 0..net.rows().len() {
        if net.has_edge(from, to) && holds(mask, to) == inside {
            is_found = true;
        }
    }
    is_found
}

// The ticks to move what a stage takes in, from each operator once, and what it hands out.
fn link_of(net: &Net, mask: u64) -> u32 {
    let mut sum: u32 = 0;
    for (v, row) in net.rows().iter().enumerate() {
        if leads(net, v, mask, !holds(mask, v)) {
            sum = sum.saturating_add(row.link);
        }
    }
    sum
}

// On an accelerator with this limit.
pub(crate) fn accelerated(net: &Net, mask: u64, limit: u32) -> Option<Cost> {
    let mut acc: u32 = 0;
    let mut size: u32 = 0;
    for (v, row) in net.rows().iter().enumerate() {
        if holds(mask, v) {
            acc = acc.saturating_add(row.acc);
            size = size.saturating_add(row.size);
        }
    }
    if size > limit {
        return None;
    }
    let link = link_of(net, mask);
    let ticks = acc.saturating_add(link);
    Some(Cost { ticks, link })
}

// On a processor.
pub(crate) fn processed(net: &Net, mask: u64) -> Cost {
    let mut ticks: u32 = 0;
    for (v, row) in net.rows().iter().enumerate() {
        if holds(mask, v) {
            ticks = ticks.saturating_add(row.cpu);
        }
    }
    Cost { ticks, link: 0 }
}

// The figures of a stage.
ghost use Rattle.std.specs.Prelude.{◌≡◌, ◌≤◌, sum_by};
ghost use Rattle.sets.specs.Sets.{gathered, members};
ghost use Rattle.sheet.specs.Rules.{most_sum};
ghost use Rattle.sheet.specs.Nets.{size, row};
ghost use Rattle.sheet.specs.Figures.{figure_of, feeds, leaves, figures_of, Charging};
ghost use Rattle.sheet.specs.Views.{net, sums};

use super::{Figure, Operator, Sheet, StageFigures};

impl Operator {
    // The figure that `which` names.
    pub fn figure(&self, which: Figure) -> u32
        ensures { result ≡ figure_of which self.now }
    {
        match which {
            Figure::Acc => self.acc,
            Figure::Cpu => self.cpu,
            Figure::Size => self.size,
            Figure::Link => self.link,
        }
    }
}

impl Sheet {
    // One figure of operator `v`, 0 where there is none.
    fn figure_at(&self, v: usize, which: Figure) -> u32
        ensures { result ≡ figure_of which (row (net self.now) v) }
    {
        self.row(v).map_or(0, |operator| operator.figure(which))
    }

    // The sum of one figure over a set. Bits that stand for no operator add nothing.
    fn sum(&self, set: u64, which: Figure) -> u32
        ensures value { result ≡ sum_by (λ v. figure_of which (row (net self.now) v)) (members set) }
        ensures bound { result ≤ most_sum }
    {
        sets::members_of(set)
            .map(|v| self.figure_at(v, which))
            .sum()
    }

    // Whether `u` is outside the set and has an edge into it.
    fn is_feeding(&self, mask: u64, u: usize) -> bool
        ensures { result ≡ feeds (net self.now) mask u }
    {
        !sets::holds(mask, u) && sets::is_meeting(self.successors(u), mask)
    }

    // Whether `u` is in the set and has an edge out of it.
    fn is_leaving(&self, mask: u64, u: usize) -> bool
        ensures { result ≡ leaves (net self.now) mask u }
    {
        sets::holds(mask, u) && !sets::is_inside(self.successors(u), mask)
    }

    // The operators outside the set that have an edge into it.
    pub fn feeding(&self, mask: u64) -> u64
        ensures { result ≡ gathered (feeds (net self.now) mask) (size (net self.now)) }
    {
        self.gather(|u| self.is_feeding(mask, u))
    }

    // The operators of the set that have an edge out of it.
    pub fn leaving(&self, mask: u64) -> u64
        ensures { result ≡ gathered (leaves (net self.now) mask) (size (net self.now)) }
    {
        self.gather(|u| self.is_leaving(mask, u))
    }

    // The figures of a set of operators as a stage. Bits that stand for no operator add nothing.
    pub fn figures(&self, mask: u64) -> StageFigures
        ensures value { sums result ≡ figures_of (net self.now) mask }
        ensures means { Charging (net self.now) mask }
    {
        let inside = sets::intersection(mask, self.all());
        StageFigures {
            mask,
            acc: self.sum(inside, Figure::Acc),
            cpu: self.sum(inside, Figure::Cpu),
            size: self.sum(inside, Figure::Size),
            incoming: self.sum(self.feeding(mask), Figure::Link),
            outgoing: self.sum(self.leaving(mask), Figure::Link),
        }
    }
}

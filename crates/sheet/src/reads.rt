// What a sheet says.
ghost use Rattle.std.specs.Prelude.{◌≡◌, ℕ, Bool, ◌<◌, ◌≤◌, length, map, sum_by, MatchOption};
ghost use Rattle.sets.specs.Sets.{has, full, gathered};
ghost use Rattle.sheet.specs.Nodes.{figures_in, successors_in};
ghost use Rattle.sheet.specs.Nets.{size, row, after, before, edges_of};
ghost use Rattle.sheet.specs.Kept.{Kept};
ghost use Rattle.sheet.specs.Views.{net};

use super::{Counts, Node, Operator, Sheet};

impl Sheet {
    // How many operators there are. Every sheet keeps the rules.
    pub fn operators(&self) -> usize
        ensures value { result ≡ size (net self.now) }
        ensures keeps { Kept (net self.now) }
    {
        self.operators
    }

    // The operators with their figures and edges, by number.
    pub fn nodes(&self) -> &[Node]
        ensures rows { map figures_in result.now ≡ (net self.now).rows }
        ensures successors { map successors_in result.now ≡ (net self.now).successors }
    {
        &self.nodes[..self.operators]
    }

    // The set of all operators.
    pub fn all(&self) -> u64
        ensures { result ≡ full (size (net self.now)) }
    {
        sets::all_below(self.operators)
    }

    // The figures of an operator.
    pub fn row(&self, v: usize) -> Option<&Operator>
        ensures { MatchOption result (size (net self.now) ≤ v) (λ o. (v < size (net self.now)) × (o.now ≡ row (net self.now) v)) }
    {
        self.nodes().get(v).map(|node| &node.figures)
    }

    // The operators that `v` has an edge to.
    pub fn successors(&self, v: usize) -> u64
        ensures { result ≡ after (net self.now) v }
    {
        self.nodes().get(v).map_or(0, |node| node.successors)
    }

    // The operators that pass a test. It is handed their numbers, for an operator is named by its number.
    pub(crate) fn gather<F: Fn(usize) -> bool>(&self, test: F) -> u64
        requires { F.IsAlwaysCallable test }
        ensures { (p : ℕ → Bool) → ((u : ℕ) (passes : Bool) → F.post test u passes → passes ≡ p u) → result ≡ gathered p (size (net self.now)) }
    {
        (0..self.operators)
            .filter(|u| test(*u))
            .fold(0, sets::include)
    }

    // The operators that have an edge to `v`.
    pub fn predecessors(&self, v: usize) -> u64
        ensures value { result ≡ before (net self.now) v }
        ensures means { (u : ℕ) → has result u ≡ has (after (net self.now) u) v }
    {
        self.gather(|u| sets::holds(self.successors(u), v))
    }

    // How many edges there are.
    pub fn edges(&self) -> usize
        ensures { result ≡ edges_of (net self.now) }
    {
        self.nodes()
            .iter()
            .map(|node| sets::size(node.successors) as usize)
            .sum()
    }

    // How many devices there are of the first kind and of the second.
    pub fn counts(&self) -> Counts
        ensures { (result.k ≡ (net self.now).k) × (result.l ≡ (net self.now).l) }
    {
        self.counts
    }
}

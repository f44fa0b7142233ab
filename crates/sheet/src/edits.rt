// Making a sheet and changing it. A call that is refused changes nothing.
ghost use Rattle.std.specs.Prelude.{◌≡◌, Bool, IfOk};
ghost use Rattle.refusals.specs.Told.{outcome};
ghost use Rattle.sheet.specs.Nets.{size, empty};
ghost use Rattle.sheet.specs.Views.{net};
ghost use Rattle.sheet.specs.Changes.{changed, within, add_refusal, added, join_refusal, joined, retime_refusal, retimed, count_refusal, counted};

use super::{Counts, Node, Operator, Sheet};
use refusals::Refusal;

pub const MOST_OPERATORS: usize = 64;

pub const MOST_FIGURE: u32 = 1_000_000;

pub const MOST_DEVICES: u8 = 8;

const BLANK: Node = Node {
    figures: Operator::BLANK,
    successors: 0,
};

impl Operator {
    // Whether each figure is within its limit.
    pub fn is_within(&self) -> bool
        ensures { result ≡ within self.now }
    {
        [self.acc, self.cpu, self.size, self.link]
            .iter()
            .all(|figure| *figure <= MOST_FIGURE)
    }
}

impl Sheet {
    // The sheet without operators, edges and devices.
    pub fn new() -> Sheet
        ensures { net result ≡ empty }
    {
        Sheet {
            operators: 0,
            nodes: [BLANK; MOST_OPERATORS],
            counts: Counts { k: 0, l: 0 },
        }
    }

    // Appends an operator and answers its number.
    #[tactic(auto, using(crate::proofs::Fronts::size_is))]
    pub fn add(&mut self, operator: Operator) -> Result<usize, Refusal>
        ensures refuses { outcome result ≡ add_refusal (net self.old) operator }
        ensures value { IfOk result (λ v. v ≡ size (net self.old)) }
        ensures changes { net self.new ≡ changed (outcome result) (net self.old) (added (net self.old) operator) }
    {
        let v = self.operators;
        if v >= MOST_OPERATORS {
            return Err(Refusal::SheetFull);
        }
        if !operator.is_within() {
            return Err(Refusal::AboveLimit);
        }
        self.nodes[v] = Node {
            figures: operator,
            successors: 0,
        };
        self.operators = v + 1;
        Ok(v)
    }

    // Adds an edge from one operator to another.
    #[tactic(auto, using(crate::proofs::Fronts::size_is, crate::proofs::Fronts::after_is))]
    pub fn join(&mut self, from: usize, to: usize) -> Result<(), Refusal>
        ensures refuses { outcome result ≡ join_refusal (net self.old) from to }
        ensures changes { net self.new ≡ changed (outcome result) (net self.old) (joined (net self.old) from to) }
    {
        if from >= self.operators || to >= self.operators {
            return Err(Refusal::NoOperator);
        }
        if from >= to {
            return Err(Refusal::NotUpward);
        }
        let successors = self.nodes[from].successors;
        if sets::holds(successors, to) {
            return Err(Refusal::EdgeExists);
        }
        self.nodes[from].successors = sets::include(successors, to);
        Ok(())
    }

    // Gives an operator other figures.
    #[tactic(auto, using(crate::proofs::Fronts::size_is))]
    pub fn retime(&mut self, v: usize, figures: &Operator) -> Result<(), Refusal>
        ensures refuses { outcome result ≡ retime_refusal (net self.old) v figures.now }
        ensures changes { net self.new ≡ changed (outcome result) (net self.old) (retimed (net self.old) v figures.now) }
    {
        if v >= self.operators {
            return Err(Refusal::NoOperator);
        }
        if !figures.is_within() {
            return Err(Refusal::AboveLimit);
        }
        // An operator is never copied: the row that the sheet keeps is written figure by figure.
        let row = &mut self.nodes[v].figures;
        row.acc = figures.acc;
        row.cpu = figures.cpu;
        row.size = figures.size;
        row.link = figures.link;
        Ok(())
    }

    // Sets how many devices of each kind there are. It takes two numbers and not `Counts`, since it is the one that judges them.
    pub fn count(&mut self, k: u8, l: u8) -> Result<(), Refusal>
        ensures refuses { outcome result ≡ count_refusal k l }
        ensures changes { net self.new ≡ changed (outcome result) (net self.old) (counted (net self.old) k l) }
    {
        if k > MOST_DEVICES || l > MOST_DEVICES {
            return Err(Refusal::CountAboveLimit);
        }
        self.counts = Counts { k, l };
        Ok(())
    }
}

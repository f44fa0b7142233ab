// The calls that change a planner, as values.
use super::Plan;
use refusals::Refusal;
use sheet::Operator;

// A call with all that it is handed. A plan is handed the front of each of three tables, as long as is named here, or the whole table where that is shorter.
#[derive(Drop)]
pub enum Call<'a> {
    Add(Operator),
    Join {
        from: usize,
        to: usize,
    },
    Retime {
        operator: usize,
        figures: Operator,
    },
    Count {
        k: u8,
        l: u8,
    },
    Load(&'a [u8]),
    Clear,
    Plan {
        ideals: usize,
        ratings: usize,
        choices: usize,
    },
}

// What a granted call answers: the number of an operator that was added, a plan, or nothing but that it is granted.
#[derive(Clone, Copy, PartialEq, Eq, Debug)]
pub enum Granted<R> {
    Added(usize),
    Changed,
    Planned(Plan<R>),
}

// A call, and what came back once it was made.
#[derive(Drop)]
pub struct Step<'a, R> {
    pub call: Call<'a>,
    pub answer: Option<Result<Granted<R>, Refusal>>,
}

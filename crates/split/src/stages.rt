// A stage: a set of operators, and the kind of device that it is given, 1 or 2.
// The kind is a number and no `WhichKind`, since the judge takes stages from anyone and answers those of no kind too.
#[repr(C)]
#[derive(Clone, Copy, PartialEq, Eq, Debug)]
pub struct Stage {
    pub mask: u64,
    pub kind: u8,
}

// The first rule that a list of stages breaks, with the index of the stage that breaks it.
#[derive(Clone, Copy, PartialEq, Eq, Debug)]
pub enum Breach {
    // the stage has no operator
    EmptyStage(usize),
    // the stage has a bit that stands for no operator
    ForeignOperator(usize),
    // the stage has an operator of an earlier stage
    RepeatedOperator(usize),
    // an edge leads from the stage to an earlier one
    EdgeBack(usize),
    // the stage's kind is neither 1 nor 2, or does not answer its figures with a load
    DoesNotFit(usize),
    // the stage is of the first kind, and all devices of that kind are in use
    TooManyOfFirst(usize),
    // the stage is of the second kind, and all devices of that kind are in use
    TooManyOfSecond(usize),
    // an operator is in no stage
    MissingOperator,
}

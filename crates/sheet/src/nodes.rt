use super::Operator;

// An operator of a sheet: its figures, and the set of the operators that it has an edge to.
#[repr(C)]
#[derive(Drop, PartialEq, Eq, Debug)]
pub struct Node {
    pub figures: Operator,
    pub successors: u64,
}

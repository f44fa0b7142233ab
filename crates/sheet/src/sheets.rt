ghost use Rattle.std.specs.Prelude.{◌≡◌, ◌≤◌, length, map, take};
ghost use Rattle.sheet.specs.Rules.{Modest, Upward, most_operators};
ghost use Rattle.sheet.specs.Nodes.{figures_in, successors_in};

use super::edits::MOST_OPERATORS;
use super::{Counts, Node};

// The operators stand in fixed memory, since nothing here allocates; the nodes beyond them say nothing.
// It is laid out as C does, with all that it holds, since a program in C may keep it (planner's `Kept`).
#[repr(C)]
#[derive(Drop)]
pub struct Sheet {
    pub(crate) operators: usize,
    pub(crate) nodes: [Node; MOST_OPERATORS],
    pub(crate) counts: Counts,
    ghost few: { operators ≤ most_operators },
    ghost table: { length nodes ≡ most_operators },
    ghost modest: { Modest (map figures_in (take operators nodes)) },
    ghost upward: { Upward (map successors_in (take operators nodes)) },
}

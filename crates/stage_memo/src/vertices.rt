ghost use Rattle.std.specs.Prelude.{◌≡◌};
ghost use Rattle.sheet.specs.Views.{net};
ghost use Rattle.stage_memo.specs.Vertices.{vertex_of};

use sheet::{Operator, Sheet};

// An operator of a network as a vertex: its figures, and the sets of the operators from which and to which it has an edge.
// It is copied out of a memo, since the memo holds a reference, and of such a struct an array's element is not lent yet; so its figures are no `Operator`, which is not copied.
#[derive(Clone, Copy)]
pub(crate) struct Vertex {
    pub(crate) acc: u32,
    pub(crate) cpu: u32,
    pub(crate) size: u32,
    pub(crate) link: u32,
    pub(crate) predecessors: u64,
    pub(crate) successors: u64,
}

impl Vertex {
    // That of the number `v`: without figures and edges where there is no operator.
    pub(crate) fn of(sheet: &Sheet, v: usize) -> Vertex
        ensures { result ≡ vertex_of (net sheet.now) v }
    {
        let row = sheet.row(v).unwrap_or(&Operator::BLANK);
        Vertex {
            acc: row.acc,
            cpu: row.cpu,
            size: row.size,
            link: row.link,
            predecessors: sheet.predecessors(v),
            successors: sheet.successors(v),
        }
    }
}

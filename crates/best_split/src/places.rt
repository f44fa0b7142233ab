use split::Stage;

// A cell: an ideal, and how many devices of each kind.
#[derive(Clone, Copy)]
pub(crate) struct Place {
    pub(crate) i: usize,
    pub(crate) a: usize,
    pub(crate) b: usize,
}

// A last stage, and the cell before it.
#[derive(Clone, Copy)]
pub(crate) struct LastStage {
    pub(crate) stage: Stage,
    pub(crate) before: Place,
}

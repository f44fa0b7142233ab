ghost use Rattle.std.specs.Prelude.{◌≡◌, ◌≤◌, length};

use split::Stage;

// Up to sixteen stages, in fixed memory. They stand at its end, since they are read back from the last one on.
#[repr(C)]
#[derive(Clone, Copy)]
pub struct Split {
    pub(crate) stages: [Stage; 16],
    pub(crate) first: usize,
    ghost within: { first ≤ 16 },
    ghost room: { length stages ≡ 16 },
}

impl Split {
    ghost use Rattle.best_split.specs.Views.{stages_of};

    // The stages, first to last.
    pub fn stages(&self) -> &[Stage]
        ensures { result.now ≡ stages_of self.now }
    {
        &self.stages[self.first..]
    }
}

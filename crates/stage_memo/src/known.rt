ghost use Rattle.std.specs.Prelude.{◌≡◌};
ghost use Rattle.sheet.specs.Nets.{Net};

use sheet::StageFigures;

// What is known of a set of operators: its figures as a stage, and the operators that feed it.
#[derive(Clone, Copy)]
pub(crate) struct Known {
    pub(crate) figures: StageFigures,
    pub(crate) feeding: u64,
}

impl Known {
    ghost use Rattle.stage_memo.specs.Known.{Right};

    // Of the set without operators, whatever the sheet.
    pub(crate) fn of_none() -> Known
        ensures mask { result.figures.mask ≡ 0 }
        ensures right { (n : Net) → Right n result }
    {
        Known {
            figures: StageFigures {
                mask: 0,
                acc: 0,
                cpu: 0,
                size: 0,
                incoming: 0,
                outgoing: 0,
            },
            feeding: 0,
        }
    }
}

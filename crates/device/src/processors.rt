ghost use Rattle.device.specs.Loads.{processed};
ghost use Rattle.std.proofs.Common.{rules};

use super::{Kind, Load};
use sheet::StageFigures;

// A processor, on which every stage fits.
#[derive(Clone, Copy, PartialEq, Eq, Debug)]
pub struct Processor;

impl Kind for Processor {
    ghost meaning = { λ _ f. processed f };

    ghost bounded = { Prim.search rules };

    fn load(&self, figures: &StageFigures) -> Option<Load> {
        Some(Load {
            ticks: figures.cpu,
            link: 0,
        })
    }
}

ghost use Rattle.scale.specs.Scales.{peak};
ghost use Rattle.std.proofs.Common.{rules};

use super::Scale;
use device::Load;

// Rates by the largest ticks of a stage.
#[derive(Clone, Copy)]
pub struct Peak;

impl Scale for Peak {
    type Rating = u32;

    ghost rules = { λ _. peak };

    ghost total = { Prim.search rules };

    ghost antisymmetric = { Prim.search rules };

    ghost transitive = { Prim.search rules };

    ghost monotone = { Prim.search rules };

    fn is_at_most(&self, x: u32, y: u32) -> bool {
        x <= y
    }

    fn start(&self) -> u32 {
        0
    }

    fn join(&self, rating: u32, load: &Load) -> u32 {
        rating.max(load.ticks)
    }
}

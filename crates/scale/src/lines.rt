ghost use Rattle.scale.specs.Scales.{line};
ghost use Rattle.std.proofs.Common.{rules};

use super::Scale;
use device::Load;

// Rates by the sum of all ticks.
#[derive(Clone, Copy)]
pub struct Line;

impl Scale for Line {
    type Rating = u64;

    ghost rules = { λ _. line };

    ghost total = { Prim.search rules };

    ghost antisymmetric = { Prim.search rules };

    ghost transitive = { Prim.search rules };

    ghost monotone = { Prim.search rules };

    fn is_at_most(&self, x: u64, y: u64) -> bool {
        x <= y
    }

    fn start(&self) -> u64 {
        0
    }

    fn join(&self, rating: u64, load: &Load) -> u64 {
        rating.saturating_add(u64::from(load.ticks))
    }
}

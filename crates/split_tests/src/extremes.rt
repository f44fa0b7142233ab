ghost use Rattle.std.specs.Prelude.{true, None};
ghost use Rattle.std.proofs.Common.{rules};

use device::{Kind, Load};
use scale::Scale;
use sheet::StageFigures;

// A kind on which nothing fits.
#[derive(Clone, Copy)]
pub struct Nothing;

impl Kind for Nothing {
    ghost meaning = { λ _ _. None };

    ghost bounded = { Prim.search rules };

    fn load(&self, _figures: &StageFigures) -> Option<Load> {
        None
    }
}

// A scale that rates all alike.
#[derive(Clone, Copy)]
pub struct Alike;

impl Scale for Alike {
    type Rating = ();

    ghost rules = { λ _. record { at_most = λ _ _. true; start = tt; joined = λ _ _. tt } };

    ghost total = { Prim.search rules };

    ghost antisymmetric = { Prim.search rules };

    ghost transitive = { Prim.search rules };

    ghost monotone = { Prim.search rules };

    fn is_at_most(&self, _x: (), _y: ()) -> bool {
        true
    }

    fn start(&self) {}

    fn join(&self, _rating: (), _load: &Load) {}
}

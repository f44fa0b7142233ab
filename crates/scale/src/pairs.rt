ghost use Rattle.std.specs.Prelude.{◌≡◌, Some};
ghost use Rattle.device.specs.Views.{load_of};
ghost use Rattle.scale.specs.Scales.{pair, pair_at_most, pair_of};
ghost use Rattle.scale.specs.Spelled.{spelled_pair};
ghost use Rattle.scale.specs.Larger.{larger_monotone, pair_total, pair_transitive};
ghost use Rattle.std.proofs.Common.{rules};

use super::Scale;
use device::Load;
use std::fmt;

// The ticks and the link of a stage, compared by ticks and on equal ticks by link.
#[repr(C)]
#[derive(Clone, Copy, PartialEq, Eq, PartialOrd, Ord, Default, Debug)]
pub struct PairRating {
    pub ticks: u32,
    pub link: u32,
}

impl From<&Load> for PairRating {
    ghost from_gives = { λ load pair. pair ≡ pair_of (load_of load.now) };

    fn from(load: &Load) -> Self {
        PairRating {
            ticks: load.ticks,
            link: load.link,
        }
    }
}

// Its two numbers, with one space between them.
impl fmt::Display for PairRating {
    ghost output = { λ r. Some (spelled_pair r) };

    fn fmt<W: fmt::Write>(&self, f: &mut fmt::Formatter<W>) -> fmt::Result {
        write!(f, "{} {}", self.ticks, self.link)
    }
}

// Rates by the largest pair of a stage.
#[derive(Clone, Copy)]
pub struct Pair;

impl Scale for Pair {
    type Rating = PairRating;

    ghost rules = { λ _. pair };

    ghost total = { Prim.search rules };

    ghost antisymmetric = { Prim.search rules };

    ghost transitive = { Prim.search rules };

    ghost monotone = { λ scale x y z fair h. larger_monotone pair_at_most pair_total pair_transitive x y (pair_of z) h };

    fn is_at_most(&self, x: PairRating, y: PairRating) -> bool {
        x <= y
    }

    fn start(&self) -> PairRating {
        PairRating::default()
    }

    fn join(&self, rating: PairRating, load: &Load) -> PairRating {
        rating.max(PairRating::from(load))
    }
}

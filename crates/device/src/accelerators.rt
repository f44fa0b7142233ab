ghost use Rattle.std.specs.Prelude.{◌≡◌, ◌≤◌, IfOk, nat_le};
ghost use Rattle.refusals.specs.declared.Refusal.TheVariants.{AboveLimit};
ghost use Rattle.refusals.specs.Told.{told, outcome};
ghost use Rattle.sheet.specs.Changes.{unless};
ghost use Rattle.device.specs.Limits.{most_limit};
ghost use Rattle.device.specs.Loads.{accelerated};
ghost use Rattle.std.proofs.Common.{rules};

use super::{Kind, Load};
use refusals::Refusal;
use sheet::StageFigures;

pub const MOST_LIMIT: u32 = 1_000_000_000;

// An accelerator with memory for stages up to a size.
#[repr(C)]
#[derive(Clone, Copy, PartialEq, Eq, Debug)]
pub struct Accelerator {
    limit: u32,
    ghost within: { limit ≤ most_limit },
}

impl Accelerator {
    pub fn new(limit: u32) -> Result<Accelerator, Refusal>
        ensures refuses { outcome result ≡ unless (nat_le limit most_limit) (told AboveLimit) }
        ensures makes { IfOk result (λ a. a.limit ≡ limit) }
    {
        if limit > MOST_LIMIT {
            return Err(Refusal::AboveLimit);
        }
        Ok(Accelerator { limit })
    }

    pub fn limit(&self) -> u32
        ensures { result ≡ self.now.limit }
    {
        self.limit
    }
}

impl Kind for Accelerator {
    ghost meaning = { λ a f. accelerated a.limit f };

    ghost bounded = { Prim.search rules };

    fn load(&self, figures: &StageFigures) -> Option<Load> {
        if figures.size > self.limit {
            return None;
        }
        let link = figures.incoming + figures.outgoing;
        Some(Load {
            ticks: figures.incoming + figures.acc + figures.outgoing,
            link,
        })
    }
}

ghost use Rattle.std.specs.Prelude.{◌≡◌, Some, Option};
ghost use Rattle.sheet.specs.Figures.{Sums};
ghost use Rattle.sheet.specs.Views.{sums};
ghost use Rattle.device.specs.Loads.{PlainLoad, Fair, Small};
ghost use Rattle.device.specs.Views.{answered};

use super::Load;
use sheet::StageFigures;

// A kind of device. It is told a stage's figures, and answers a load or that the stage does not fit.
pub trait Kind {
    // the answer, as a function of the figures
    ghost meaning: { Self → Sums → Option PlainLoad };

    fn load(&self, figures: &StageFigures) -> Option<Load>
        ensures { answered result ≡ meaning self.now (sums figures.now) };

    // within the limits of figures, the load is within its own
    ghost bounded: { (kind : Self) (f : Sums) (x : PlainLoad) → Small f → meaning kind f ≡ Some x → Fair x };
}

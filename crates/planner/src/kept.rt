// A planner between two calls of a program in another language, which keeps it in memory of its own: a record with no type parameter and no
// enum in it. For a call the planner is taken out, and it is put back after it.
ghost use Rattle.std.specs.Prelude.{◌≡◌, true};
ghost use Rattle.sheet.specs.Views.{net};
ghost use Rattle.best_split.specs.Views.{stages_of};
ghost use Rattle.planner.specs.States.{Covers};

use super::Planner;
use best_split::{Found, Split};
use device::{Accelerator, Processor};
use scale::Scale;
use sheet::Sheet;

// All of a planner with an accelerator and a processor but its scale and its rating, whose types are those of the scale.
// Nothing here makes one: what is taken out was put there by a call.
#[repr(C)]
#[derive(Drop)]
pub struct Kept {
    sheet: Sheet,
    split: Split,
    ideals: usize,
    accelerator: Accelerator,
    stands: bool,
    ghost covers: { stands ≡ true → Covers (net sheet) (stages_of split) },
}

impl Kept {
    ghost use Rattle.planner.specs.Views.{state};
    ghost use Rattle.planner.specs.Kept.{kept};

    // What is left here is another planner, until this one is put back.
    pub fn take<S: Scale>(
        &mut self,
        scale: S,
        rating: S::Rating,
    ) -> Planner<Accelerator, Processor, S>
        ensures { state result ≡ kept scale rating self.old }
    {
        let standing = if self.stands {
            Some(Found {
                rating,
                split: self.split,
                ideals: self.ideals,
            })
        } else {
            None
        };
        Planner {
            sheet: std::mem::replace(&mut self.sheet, Sheet::new()),
            first: self.accelerator,
            second: Processor,
            scale,
            standing,
        }
    }

    // The rating that is kept beside it changes only where a split stands.
    pub fn put<S: Scale + Drop>(
        &mut self,
        planner: Planner<Accelerator, Processor, S>,
        rating: &mut S::Rating,
    )
        ensures { kept planner.scale rating.new self.new ≡ state planner }
    {
        self.sheet = planner.sheet;
        self.accelerator = planner.first;
        self.stands = planner.standing.is_some();
        if let Some(found) = planner.standing {
            self.split = found.split;
            self.ideals = found.ideals;
            *rating = found.rating;
        }
    }
}

ghost use Rattle.std.specs.Prelude.{◌≡◌, ◌-◌, length, map, take, drop};
ghost use Rattle.best_split.specs.Views.{stages_of};
ghost use Rattle.pass_export.specs.Told.{stage_of, no_stages, TellsFound, TellsRefused, Tells};

use best_split::{Found, Split};
use refusals::Refusal;

// A stage as the caller reads it.
#[repr(C)]
#[derive(Clone, Copy)]
pub struct StageRecord {
    pub mask: u64,
    pub kind: u8,
}

// What the caller is told: the number of a refusal and else nothing but zeros, or 0 and then the rating of a split, how many
// ideals there are, and the stages of the split, which are the first `count` here; zeros stand at the other places.
#[repr(C)]
#[derive(Clone, Copy)]
pub struct Answer {
    pub refusal: u8,
    pub rating: u32,
    pub ideals: usize,
    pub count: usize,
    pub stages: [StageRecord; 16],
}

// What stands at the place of no stage.
const BLANK: StageRecord = StageRecord { mask: 0, kind: 0 };

// The stages of a split, from the first place on.
fn records(split: &Split) -> [StageRecord; 16]
    ensures stages { take (length (stages_of split.now)) (map stage_of result) ≡ stages_of split.now }
    ensures others { drop (length (stages_of split.now)) (map stage_of result) ≡ no_stages (16 - length (stages_of split.now)) }
{
    let mut records = [BLANK; 16];
    for (i, stage) in split.stages().iter().enumerate() {
        records[i] = StageRecord {
            mask: stage.mask,
            kind: stage.kind,
        };
    }
    records
}

impl Answer {
    // Of a split that was found.
    fn granted(found: &Found<u32>) -> Answer
        ensures { TellsFound found.now result }
    {
        Answer {
            refusal: 0,
            rating: found.rating,
            ideals: found.ideals,
            count: found.split.stages().len(),
            stages: records(&found.split),
        }
    }

    // Of a search that was refused.
    fn refused(refusal: Refusal) -> Answer
        ensures { TellsRefused refusal result }
    {
        Answer {
            refusal: refusal.number(),
            rating: 0,
            ideals: 0,
            count: 0,
            stages: [BLANK; 16],
        }
    }

    // Of a search, whether it was refused or not.
    pub(crate) fn of(searched: Result<Found<u32>, Refusal>) -> Answer
        ensures { Tells searched result }
    {
        match searched {
            Ok(found) => Answer::granted(&found),
            Err(refusal) => Answer::refused(refusal),
        }
    }
}

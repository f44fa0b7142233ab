ghost use Rattle.std.specs.Prelude.{◌≡◌};
ghost use Rattle.pass_export.specs.Searched.{Searched, Answers};

use super::Answer;
use best_split::Found;
use cells::Choice;
use device::{Accelerator, Processor};
use refusals::Refusal;
use scale::Peak;
use split::Problem;

// Finds a least split of the sheet of a file, with accelerators of this limit as the first kind and processors as the second.
fn search(
    file: &[u8],
    limit: u32,
    ideals: &mut [u64],
    ratings: &mut [u32],
    choices: &mut [Choice],
) -> Result<Found<u32>, Refusal>
    ensures { Searched limit file.now ideals.old ideals.new ratings.old choices.old ratings.new choices.new result }
{
    let accelerator = Accelerator::new(limit)?;
    let sheet = sheet_file::load(file)?;
    let problem = Problem {
        sheet: &sheet,
        first: &accelerator,
        second: &Processor,
    };
    best_split::find(&problem, &Peak, ideals, ratings, choices)
}

// `search` by a name and types that a program in C can call.
#[unsafe(no_mangle)]
pub extern "C" fn planner_find_split(
    file: &[u8],
    limit: u32,
    ideals: &mut [u64],
    ratings: &mut [u32],
    choices: &mut [Choice],
) -> Answer
    ensures { Answers limit file.now ideals.old ideals.new ratings.old choices.old ratings.new choices.new result }
{
    Answer::of(search(file, limit, ideals, ratings, choices))
}

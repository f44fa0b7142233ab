// The calls by which the sheet of a file is planned.
ghost use Rattle.std.specs.Prelude.{◌≡◌, true, is_some, IfOk};
ghost use Rattle.refusals.specs.Told.{outcome};
ghost use Rattle.planner.specs.Views.{state, kinds_in};
ghost use Rattle.planner.specs.Answers.{page_text};
ghost use Rattle.page_report.specs.SplitPages.{split_refusal, split_text, refused_in, Means};

use cells::Choice;
use device::{Accelerator, Processor};
use planner::{Call, Planner, Step, run};
use refusals::Refusal;
use scale::Peak;

const LIMIT: u32 = 1_000_000;

const IDEALS: usize = 512;

const CELLS: usize = 4_096;

// Whether a step was granted.
fn granted(step: &Step<'_, u32>) -> Result<(), Refusal>
    ensures { outcome result ≡ refused_in step.now }
{
    match step.answer {
        Some(Err(refusal)) => Err(refusal),
        _ => Ok(()),
    }
}

// A planner that has loaded the file and planned its sheet, or the first of the two refusals.
pub(crate) fn plan_file(file: &[u8]) -> Result<Planner<Accelerator, Processor, Peak>, Refusal>
    ensures refuses { outcome result ≡ split_refusal file.now }
    ensures stands { IfOk result (λ p. (is_some (state p).standing ≡ true) × (page_text (state p).net (kinds_in p) (state p).standing ≡ split_text file.now)) }
    ensures means { Means file.now }
{
    // for its contract: a file says one sheet, that of its entries
    sheet_layout::laws_stand();
    let mut steps = [
        Step {
            call: Call::Load(file),
            answer: None,
        },
        Step {
            call: Call::Plan {
                ideals: IDEALS,
                ratings: CELLS,
                choices: CELLS,
            },
            answer: None,
        },
    ];
    let planner = run(
        Accelerator::new(LIMIT).unwrap(),
        Processor,
        Peak,
        &mut steps,
        &mut [0; IDEALS],
        &mut [0; CELLS],
        &mut [Choice::NONE; CELLS],
    );
    granted(&steps[0])?;
    granted(&steps[1])?;
    Ok(planner)
}

// The calls that change a planner on the scale peak, exported.
ghost use Rattle.std.specs.Prelude.{◌≡◌, ℕ, length, Result};
ghost use Rattle.refusals.specs.declared.Refusal.{Refusal};
ghost use Rattle.scale.specs.Scales.{peak};
ghost use Rattle.planner.specs.declared.plans.Plan.{Plan};
ghost use Rattle.planner.specs.Plans.{Plans};
ghost use Rattle.controller.specs.Calls.{kinds_at, Makes, Adds, Joins, Retimes, Counts, Loads, Clears, PlanAdds};
ghost use Rattle.controller.specs.Peaks.{on_peak, plan_of};

use super::{NumberRecord, PeakPlanRecord, PeakPlanner, RefusalRecord, edits, plans};
use cells::Choice;
use scale::Peak;
use sheet::Operator;

// Makes a planner without operators, edges, devices and a split.
#[unsafe(no_mangle)]
pub extern "C" fn planner_peak_new(planner: &mut PeakPlanner, limit: u32) -> RefusalRecord
    ensures { Makes peak (on_peak planner.old) (on_peak planner.new) (on_peak planner.old).scale limit result }
{
    plans::new(&mut planner.kept, Peak, &mut planner.rating, limit)
}

#[unsafe(no_mangle)]
pub extern "C" fn planner_peak_add(
    planner: &mut PeakPlanner,
    acc: u32,
    cpu: u32,
    size: u32,
    link: u32,
) -> NumberRecord
    ensures { Adds peak (on_peak planner.old) (on_peak planner.new) (record { acc = acc; cpu = cpu; size = size; link = link }) result }
{
    let operator = Operator {
        acc,
        cpu,
        size,
        link,
    };
    edits::add(&mut planner.kept, Peak, &mut planner.rating, operator)
}

#[unsafe(no_mangle)]
pub extern "C" fn planner_peak_join(
    planner: &mut PeakPlanner,
    from: usize,
    to: usize,
) -> RefusalRecord
    ensures { Joins peak (on_peak planner.old) (on_peak planner.new) from to result }
{
    edits::join(&mut planner.kept, Peak, &mut planner.rating, from, to)
}

#[unsafe(no_mangle)]
pub extern "C" fn planner_peak_retime(
    planner: &mut PeakPlanner,
    number: usize,
    acc: u32,
    cpu: u32,
    size: u32,
    link: u32,
) -> RefusalRecord
    ensures { Retimes peak (on_peak planner.old) (on_peak planner.new) number (record { acc = acc; cpu = cpu; size = size; link = link }) result }
{
    let figures = Operator {
        acc,
        cpu,
        size,
        link,
    };
    edits::retime(
        &mut planner.kept,
        Peak,
        &mut planner.rating,
        number,
        &figures,
    )
}

#[unsafe(no_mangle)]
pub extern "C" fn planner_peak_count(planner: &mut PeakPlanner, k: u8, l: u8) -> RefusalRecord
    ensures { Counts peak (on_peak planner.old) (on_peak planner.new) k l result }
{
    edits::count(&mut planner.kept, Peak, &mut planner.rating, k, l)
}

#[unsafe(no_mangle)]
pub extern "C" fn planner_peak_load(planner: &mut PeakPlanner, file: &[u8]) -> RefusalRecord
    ensures { Loads peak (on_peak planner.old) (on_peak planner.new) file.entry result }
{
    edits::load(&mut planner.kept, Peak, &mut planner.rating, file)
}

#[unsafe(no_mangle)]
pub extern "C" fn planner_peak_clear(planner: &mut PeakPlanner)
    ensures { Clears peak (on_peak planner.old) (on_peak planner.new) }
{
    edits::clear(&mut planner.kept, Peak, &mut planner.rating);
}

// Finds a least split by way of three tables that are lent, and sets it up.
#[unsafe(no_mangle)]
pub extern "C" fn planner_peak_plan(
    planner: &mut PeakPlanner,
    ideals: &mut [u64],
    ratings: &mut [u32],
    choices: &mut [Choice],
) -> PeakPlanRecord
    ensures { (r : Result (Plan ℕ) Refusal) × Plans (kinds_at (on_peak planner.old)) peak ideals.old ideals.new ratings.old choices.old ratings.new choices.new (on_peak planner.old) (on_peak planner.new) r × PlanAdds peak (on_peak planner.old) (on_peak planner.new) (length ideals.old) (length ratings.old) (length choices.old) r × (result ≡ plan_of r) }
{
    PeakPlanRecord::of(plans::plan(
        &mut planner.kept,
        Peak,
        &mut planner.rating,
        ideals,
        ratings,
        choices,
    ))
}

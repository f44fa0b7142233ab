// The calls that change a planner on the scale line, exported.
ghost use Rattle.std.specs.Prelude.{◌≡◌, ℕ, length, Result};
ghost use Rattle.refusals.specs.declared.Refusal.{Refusal};
ghost use Rattle.scale.specs.Scales.{line};
ghost use Rattle.planner.specs.declared.plans.Plan.{Plan};
ghost use Rattle.planner.specs.Plans.{Plans};
ghost use Rattle.controller.specs.Calls.{kinds_at, Makes, Adds, Joins, Retimes, Counts, Loads, Clears, PlanAdds};
ghost use Rattle.controller.specs.Lines.{on_line, plan_of};

use super::{LinePlanRecord, LinePlanner, NumberRecord, RefusalRecord, edits, plans};
use cells::Choice;
use scale::Line;
use sheet::Operator;

// Makes a planner without operators, edges, devices and a split.
#[unsafe(no_mangle)]
pub extern "C" fn planner_line_new(planner: &mut LinePlanner, limit: u32) -> RefusalRecord
    ensures { Makes line (on_line planner.old) (on_line planner.new) (on_line planner.old).scale limit result }
{
    plans::new(&mut planner.kept, Line, &mut planner.rating, limit)
}

#[unsafe(no_mangle)]
pub extern "C" fn planner_line_add(
    planner: &mut LinePlanner,
    acc: u32,
    cpu: u32,
    size: u32,
    link: u32,
) -> NumberRecord
    ensures { Adds line (on_line planner.old) (on_line planner.new) (record { acc = acc; cpu = cpu; size = size; link = link }) result }
{
    let operator = Operator {
        acc,
        cpu,
        size,
        link,
    };
    edits::add(&mut planner.kept, Line, &mut planner.rating, operator)
}

#[unsafe(no_mangle)]
pub extern "C" fn planner_line_join(
    planner: &mut LinePlanner,
    from: usize,
    to: usize,
) -> RefusalRecord
    ensures { Joins line (on_line planner.old) (on_line planner.new) from to result }
{
    edits::join(&mut planner.kept, Line, &mut planner.rating, from, to)
}

#[unsafe(no_mangle)]
pub extern "C" fn planner_line_retime(
    planner: &mut LinePlanner,
    number: usize,
    acc: u32,
    cpu: u32,
    size: u32,
    link: u32,
) -> RefusalRecord
    ensures { Retimes line (on_line planner.old) (on_line planner.new) number (record { acc = acc; cpu = cpu; size = size; link = link }) result }
{
    let figures = Operator {
        acc,
        cpu,
        size,
        link,
    };
    edits::retime(
        &mut planner.kept,
        Line,
        &mut planner.rating,
        number,
        &figures,
    )
}

#[unsafe(no_mangle)]
pub extern "C" fn planner_line_count(planner: &mut LinePlanner, k: u8, l: u8) -> RefusalRecord
    ensures { Counts line (on_line planner.old) (on_line planner.new) k l result }
{
    edits::count(&mut planner.kept, Line, &mut planner.rating, k, l)
}

#[unsafe(no_mangle)]
pub extern "C" fn planner_line_load(planner: &mut LinePlanner, file: &[u8]) -> RefusalRecord
    ensures { Loads line (on_line planner.old) (on_line planner.new) file.entry result }
{
    edits::load(&mut planner.kept, Line, &mut planner.rating, file)
}

#[unsafe(no_mangle)]
pub extern "C" fn planner_line_clear(planner: &mut LinePlanner)
    ensures { Clears line (on_line planner.old) (on_line planner.new) }
{
    edits::clear(&mut planner.kept, Line, &mut planner.rating);
}

// Finds a least split by way of three tables that are lent, and sets it up.
#[unsafe(no_mangle)]
pub extern "C" fn planner_line_plan(
    planner: &mut LinePlanner,
    ideals: &mut [u64],
    ratings: &mut [u64],
    choices: &mut [Choice],
) -> LinePlanRecord
    ensures { (r : Result (Plan ℕ) Refusal) × Plans (kinds_at (on_line planner.old)) line ideals.old ideals.new ratings.old choices.old ratings.new choices.new (on_line planner.old) (on_line planner.new) r × PlanAdds line (on_line planner.old) (on_line planner.new) (length ideals.old) (length ratings.old) (length choices.old) r × (result ≡ plan_of r) }
{
    LinePlanRecord::of(plans::plan(
        &mut planner.kept,
        Line,
        &mut planner.rating,
        ideals,
        ratings,
        choices,
    ))
}

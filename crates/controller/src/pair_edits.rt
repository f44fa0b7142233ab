// The calls that change a planner on the scale pair, exported.
ghost use Rattle.std.specs.Prelude.{◌≡◌, length, Result};
ghost use Rattle.refusals.specs.declared.Refusal.{Refusal};
ghost use Rattle.scale.specs.declared.pairs.PairRating.{PairRating};
ghost use Rattle.scale.specs.Scales.{pair};
ghost use Rattle.planner.specs.declared.plans.Plan.{Plan};
ghost use Rattle.planner.specs.Plans.{Plans};
ghost use Rattle.controller.specs.Calls.{kinds_at, Makes, Adds, Joins, Retimes, Counts, Loads, Clears, PlanAdds};
ghost use Rattle.controller.specs.Pairs.{on_pair, plan_of};

use super::{NumberRecord, PairPlanRecord, PairPlanner, RefusalRecord, edits, plans};
use cells::Choice;
use scale::{Pair, PairRating};
use sheet::Operator;

// Makes a planner without operators, edges, devices and a split.
#[unsafe(no_mangle)]
pub extern "C" fn planner_pair_new(planner: &mut PairPlanner, limit: u32) -> RefusalRecord
    ensures { Makes pair (on_pair planner.old) (on_pair planner.new) (on_pair planner.old).scale limit result }
{
    plans::new(&mut planner.kept, Pair, &mut planner.rating, limit)
}

#[unsafe(no_mangle)]
pub extern "C" fn planner_pair_add(
    planner: &mut PairPlanner,
    acc: u32,
    cpu: u32,
    size: u32,
    link: u32,
) -> NumberRecord
    ensures { Adds pair (on_pair planner.old) (on_pair planner.new) (record { acc = acc; cpu = cpu; size = size; link = link }) result }
{
    let operator = Operator {
        acc,
        cpu,
        size,
        link,
    };
    edits::add(&mut planner.kept, Pair, &mut planner.rating, operator)
}

#[unsafe(no_mangle)]
pub extern "C" fn planner_pair_join(
    planner: &mut PairPlanner,
    from: usize,
    to: usize,
) -> RefusalRecord
    ensures { Joins pair (on_pair planner.old) (on_pair planner.new) from to result }
{
    edits::join(&mut planner.kept, Pair, &mut planner.rating, from, to)
}

#[unsafe(no_mangle)]
pub extern "C" fn planner_pair_retime(
    planner: &mut PairPlanner,
    number: usize,
    acc: u32,
    cpu: u32,
    size: u32,
    link: u32,
) -> RefusalRecord
    ensures { Retimes pair (on_pair planner.old) (on_pair planner.new) number (record { acc = acc; cpu = cpu; size = size; link = link }) result }
{
    let figures = Operator {
        acc,
        cpu,
        size,
        link,
    };
    edits::retime(
        &mut planner.kept,
        Pair,
        &mut planner.rating,
        number,
        &figures,
    )
}

#[unsafe(no_mangle)]
pub extern "C" fn planner_pair_count(planner: &mut PairPlanner, k: u8, l: u8) -> RefusalRecord
    ensures { Counts pair (on_pair planner.old) (on_pair planner.new) k l result }
{
    edits::count(&mut planner.kept, Pair, &mut planner.rating, k, l)
}

#[unsafe(no_mangle)]
pub extern "C" fn planner_pair_load(planner: &mut PairPlanner, file: &[u8]) -> RefusalRecord
    ensures { Loads pair (on_pair planner.old) (on_pair planner.new) file.entry result }
{
    edits::load(&mut planner.kept, Pair, &mut planner.rating, file)
}

#[unsafe(no_mangle)]
pub extern "C" fn planner_pair_clear(planner: &mut PairPlanner)
    ensures { Clears pair (on_pair planner.old) (on_pair planner.new) }
{
    edits::clear(&mut planner.kept, Pair, &mut planner.rating);
}

// Finds a least split by way of three tables that are lent, and sets it up.
#[unsafe(no_mangle)]
pub extern "C" fn planner_pair_plan(
    planner: &mut PairPlanner,
    ideals: &mut [u64],
    ratings: &mut [PairRating],
    choices: &mut [Choice],
) -> PairPlanRecord
    ensures { (r : Result (Plan PairRating) Refusal) × Plans (kinds_at (on_pair planner.old)) pair ideals.old ideals.new ratings.old choices.old ratings.new choices.new (on_pair planner.old) (on_pair planner.new) r × PlanAdds pair (on_pair planner.old) (on_pair planner.new) (length ideals.old) (length ratings.old) (length choices.old) r × (result ≡ plan_of r) }
{
    PairPlanRecord::of(plans::plan(
        &mut planner.kept,
        Pair,
        &mut planner.rating,
        ideals,
        ratings,
        choices,
    ))
}

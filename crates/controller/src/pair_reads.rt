// The calls that only read a planner on the scale pair, exported.
ghost use Rattle.std.specs.Prelude.{◌≡◌};
ghost use Rattle.planner.specs.Answers.{rating_answer};
ghost use Rattle.controller.specs.Calls.{Stages, Places, Margins, Pages, Writes};
ghost use Rattle.controller.specs.Pairs.{on_pair, rating_of};

use super::{MarginRecord, NumberRecord, PairPlanner, PairRatingRecord, StageRecord, plans, reads};
use scale::Pair;

#[unsafe(no_mangle)]
pub extern "C" fn planner_pair_stage(planner: &mut PairPlanner, number: usize) -> StageRecord
    ensures { Stages (on_pair planner.old) (on_pair planner.new) number result }
{
    reads::stage(&mut planner.kept, Pair, &mut planner.rating, number)
}

#[unsafe(no_mangle)]
pub extern "C" fn planner_pair_place(planner: &mut PairPlanner, number: usize) -> NumberRecord
    ensures { Places (on_pair planner.old) (on_pair planner.new) number result }
{
    reads::place(&mut planner.kept, Pair, &mut planner.rating, number)
}

#[unsafe(no_mangle)]
pub extern "C" fn planner_pair_rating(planner: &mut PairPlanner) -> PairRatingRecord
    ensures { (result ≡ rating_of (rating_answer (on_pair planner.old).standing)) × (on_pair planner.new ≡ on_pair planner.old) }
{
    PairRatingRecord::of(plans::rating(&mut planner.kept, Pair, &mut planner.rating))
}

#[unsafe(no_mangle)]
pub extern "C" fn planner_pair_margin(planner: &mut PairPlanner, pick: u32) -> MarginRecord
    ensures { Margins (on_pair planner.old) (on_pair planner.new) pick result }
{
    reads::margin(&mut planner.kept, Pair, &mut planner.rating, pick)
}

#[unsafe(no_mangle)]
pub extern "C" fn planner_pair_page(planner: &mut PairPlanner, buffer: &mut [u8]) -> NumberRecord
    ensures { Pages (on_pair planner.old) (on_pair planner.new) buffer.old buffer.new result }
{
    reads::page(&mut planner.kept, Pair, &mut planner.rating, buffer)
}

#[unsafe(no_mangle)]
pub extern "C" fn planner_pair_write(planner: &mut PairPlanner, buffer: &mut [u8]) -> NumberRecord
    ensures { Writes (on_pair planner.old) (on_pair planner.new) buffer.old buffer.new result }
{
    reads::write(&mut planner.kept, Pair, &mut planner.rating, buffer)
}

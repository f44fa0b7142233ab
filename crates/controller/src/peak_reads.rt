// The calls that only read a planner on the scale peak, exported.
ghost use Rattle.std.specs.Prelude.{◌≡◌};
ghost use Rattle.planner.specs.Answers.{rating_answer};
ghost use Rattle.controller.specs.Calls.{Stages, Places, Margins, Pages, Writes};
ghost use Rattle.controller.specs.Peaks.{on_peak, rating_of};

use super::{MarginRecord, NumberRecord, PeakPlanner, PeakRatingRecord, StageRecord, plans, reads};
use scale::Peak;

#[unsafe(no_mangle)]
pub extern "C" fn planner_peak_stage(planner: &mut PeakPlanner, number: usize) -> StageRecord
    ensures { Stages (on_peak planner.old) (on_peak planner.new) number result }
{
    reads::stage(&mut planner.kept, Peak, &mut planner.rating, number)
}

#[unsafe(no_mangle)]
pub extern "C" fn planner_peak_place(planner: &mut PeakPlanner, number: usize) -> NumberRecord
    ensures { Places (on_peak planner.old) (on_peak planner.new) number result }
{
    reads::place(&mut planner.kept, Peak, &mut planner.rating, number)
}

#[unsafe(no_mangle)]
pub extern "C" fn planner_peak_rating(planner: &mut PeakPlanner) -> PeakRatingRecord
    ensures { (result ≡ rating_of (rating_answer (on_peak planner.old).standing)) × (on_peak planner.new ≡ on_peak planner.old) }
{
    PeakRatingRecord::of(plans::rating(&mut planner.kept, Peak, &mut planner.rating))
}

#[unsafe(no_mangle)]
pub extern "C" fn planner_peak_margin(planner: &mut PeakPlanner, pick: u32) -> MarginRecord
    ensures { Margins (on_peak planner.old) (on_peak planner.new) pick result }
{
    reads::margin(&mut planner.kept, Peak, &mut planner.rating, pick)
}

#[unsafe(no_mangle)]
pub extern "C" fn planner_peak_page(planner: &mut PeakPlanner, buffer: &mut [u8]) -> NumberRecord
    ensures { Pages (on_peak planner.old) (on_peak planner.new) buffer.old buffer.new result }
{
    reads::page(&mut planner.kept, Peak, &mut planner.rating, buffer)
}

#[unsafe(no_mangle)]
pub extern "C" fn planner_peak_write(planner: &mut PeakPlanner, buffer: &mut [u8]) -> NumberRecord
    ensures { Writes (on_peak planner.old) (on_peak planner.new) buffer.old buffer.new result }
{
    reads::write(&mut planner.kept, Peak, &mut planner.rating, buffer)
}

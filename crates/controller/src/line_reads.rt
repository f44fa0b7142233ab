// The calls that only read a planner on the scale line, exported.
ghost use Rattle.std.specs.Prelude.{◌≡◌};
ghost use Rattle.planner.specs.Answers.{rating_answer};
ghost use Rattle.controller.specs.Calls.{Stages, Places, Margins, Pages, Writes};
ghost use Rattle.controller.specs.Lines.{on_line, rating_of};

use super::{LinePlanner, LineRatingRecord, MarginRecord, NumberRecord, StageRecord, plans, reads};
use scale::Line;

#[unsafe(no_mangle)]
pub extern "C" fn planner_line_stage(planner: &mut LinePlanner, number: usize) -> StageRecord
    ensures { Stages (on_line planner.old) (on_line planner.new) number result }
{
    reads::stage(&mut planner.kept, Line, &mut planner.rating, number)
}

#[unsafe(no_mangle)]
pub extern "C" fn planner_line_place(planner: &mut LinePlanner, number: usize) -> NumberRecord
    ensures { Places (on_line planner.old) (on_line planner.new) number result }
{
    reads::place(&mut planner.kept, Line, &mut planner.rating, number)
}

#[unsafe(no_mangle)]
pub extern "C" fn planner_line_rating(planner: &mut LinePlanner) -> LineRatingRecord
    ensures { (result ≡ rating_of (rating_answer (on_line planner.old).standing)) × (on_line planner.new ≡ on_line planner.old) }
{
    LineRatingRecord::of(plans::rating(&mut planner.kept, Line, &mut planner.rating))
}

#[unsafe(no_mangle)]
pub extern "C" fn planner_line_margin(planner: &mut LinePlanner, pick: u32) -> MarginRecord
    ensures { Margins (on_line planner.old) (on_line planner.new) pick result }
{
    reads::margin(&mut planner.kept, Line, &mut planner.rating, pick)
}

#[unsafe(no_mangle)]
pub extern "C" fn planner_line_page(planner: &mut LinePlanner, buffer: &mut [u8]) -> NumberRecord
    ensures { Pages (on_line planner.old) (on_line planner.new) buffer.old buffer.new result }
{
    reads::page(&mut planner.kept, Line, &mut planner.rating, buffer)
}

#[unsafe(no_mangle)]
pub extern "C" fn planner_line_write(planner: &mut LinePlanner, buffer: &mut [u8]) -> NumberRecord
    ensures { Writes (on_line planner.old) (on_line planner.new) buffer.old buffer.new result }
{
    reads::write(&mut planner.kept, Line, &mut planner.rating, buffer)
}

// The lines on the ideals and on the least splits.
ghost use Rattle.std.specs.Prelude.{◌≡◌, ℕ, List, length, IfOk, string_bytes};
ghost use Rattle.sheet.specs.Views.{net};
ghost use Rattle.split.specs.Problems.{net_of, kinds_of};
ghost use Rattle.ideals.specs.Ideals.{ideals, most_ideals, fitting};
ghost use Rattle.sheet_report.specs.Plans.{least_line, plan_lines, Counted, Spells, FindsLeast};

use crate::stage_lists::StageList;
use best_split::Found;
use cells::{Choice, Rows};
use device::{Accelerator, Kind, Processor};
use ideals::MOST_IDEALS;
use scale::{Line, Pair, Peak, Scale};
use sheet::Sheet;
use split::Problem;
use std::alloc::{AllocError, Global};
use std::fmt::Display;

// How many ideals a sheet has, or `None` where there are more than 4,096.
fn count_ideals(heap: Global, sheet: &Sheet) -> Result<Option<usize>, AllocError>
    ensures { IfOk result (λ o. o ≡ fitting most_ideals (length (ideals (net sheet.now)))) }
{
    let mut table = vec![in heap; 0; MOST_IDEALS]?;
    Ok(ideals::list(sheet, &mut table))
}

// A least split on a scale, by way of tables that are made for the ideals of the sheet, which are so many; `None` where there is no lawful split.
fn find_least<K: Kind, L: Kind, S: Scale>(
    heap: Global,
    problem: &Problem<'_, K, L>,
    scale: &S,
    ideals: usize,
) -> Result<Option<Found<S::Rating>>, AllocError>
    requires { Counted (net_of problem.now) ideals }
    ensures { IfOk result (FindsLeast (net_of problem.now) (kinds_of K.meaning L.meaning problem.now) (S.rules scale.now)) }
{
    let rows = Rows::new(scale, problem.sheet.counts());
    let cells = ideals * rows.width();
    let mut masks = vec![in heap; 0; ideals]?;
    let mut ratings = vec![in heap; scale.start(); cells]?;
    let mut choices = vec![in heap; Choice::NONE; cells]?;
    Ok(best_split::find(problem, scale, &mut masks, &mut ratings, &mut choices).ok())
}

// The line of a scale.
fn least_line<K: Kind, L: Kind, R: Copy + Display, S: Scale<Rating = R>>(
    heap: Global,
    problem: &Problem<'_, K, L>,
    name: &str,
    scale: &S,
    ideals: usize,
) -> Result<String, AllocError>
    requires { Counted (net_of problem.now) ideals }
    ensures { IfOk result (λ t. (spell : R → List ℕ) → Spells R.output spell → string_bytes t ≡ least_line name.now spell (net_of problem.now) (kinds_of K.meaning L.meaning problem.now) (S.rules scale.now)) }
{
    let Some(found) = find_least(heap, problem, scale, ideals)? else {
        return format!(in heap; "least {name} none\n");
    };
    let rating = found.rating;
    let stages = StageList(found.split.stages());
    format!(in heap; "least {name} {rating}: {stages}\n")
}

// The lines of all scales, after how many ideals there are; of too many ideals nothing but that.
pub(crate) fn plan(
    heap: Global,
    problem: &Problem<'_, Accelerator, Processor>,
) -> Result<String, AllocError>
    ensures { IfOk result (λ t. string_bytes t ≡ plan_lines problem.now.first.now.limit (net_of problem.now)) }
{
    let Some(ideals) = count_ideals(heap, problem.sheet)? else {
        return format!(in heap; "ideals more than {MOST_IDEALS}\n");
    };
    let peak = least_line(heap, problem, "peak", &Peak, ideals)?;
    let line = least_line(heap, problem, "line", &Line, ideals)?;
    let pair = least_line(heap, problem, "pair", &Pair, ideals)?;
    format!(in heap; "ideals {ideals}\n{peak}{line}{pair}")
}

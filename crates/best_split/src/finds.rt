ghost use Rattle.std.specs.Prelude.{◌≡◌, ◌<◌, ◌≤◌, length};
ghost use Rattle.split.specs.Problems.{net_of, kinds_of};
ghost use Rattle.recurrence.specs.Planned.{setting_over};
ghost use Rattle.best_split.specs.Finds.{Solves, Finds};

use super::Split;
use super::filled_tables::FilledTables;
use cells::Choice;
use device::Kind;
use refusals::Refusal;
use scale::Scale;
use split::Problem;

// A least split: its rating, its stages, and how many ideals the sheet has.
#[derive(Drop)]
pub struct Found<R> {
    pub rating: R,
    pub split: Split,
    pub ideals: usize,
}

// Fills the cells of these ideals and reads the stages back. The two tables are the caller's own slices, as they are lent.
// The setting is spelled out: `setting`, which has a name, is over all ideals of a sheet, and here they are what a table holds.
fn solve<K: Kind, L: Kind, S: Scale>(
    problem: &Problem<'_, K, L>,
    scale: &S,
    ideals: &[u64],
    ratings: &mut [S::Rating],
    choices: &mut [Choice],
) -> Result<Found<S::Rating>, Refusal>
    requires some { (0 < length ideals.now) × (length ideals.now ≤ 4096) }
    ensures { Solves (setting_over ideals.now (net_of problem.now) (kinds_of K.meaning L.meaning problem.now) (S.rules scale.now)) (net_of problem.now).k (net_of problem.now).l ratings.old choices.old ratings.new choices.new result }
{
    table_pass::fill(problem, scale, ideals, ratings, choices)?;
    let tables = FilledTables {
        problem,
        scale,
        ideals,
        ratings,
        choices,
    };
    let rating = tables.rating().ok_or(Refusal::NoLawfulSplit)?;
    let split = tables.split();
    Ok(Found {
        rating,
        split,
        ideals: ideals.len(),
    })
}

// Finds a least split of a problem on a scale, by way of the three tables, which are slices, as they are lent.
pub fn find<K: Kind, L: Kind, S: Scale>(
    problem: &Problem<'_, K, L>,
    scale: &S,
    ideals: &mut [u64],
    ratings: &mut [S::Rating],
    choices: &mut [Choice],
) -> Result<Found<S::Rating>, Refusal>
    ensures { Finds (net_of problem.now) (kinds_of K.meaning L.meaning problem.now) (S.rules scale.now) ideals.old ideals.new ratings.old choices.old ratings.new choices.new result }
{
    // for its contract: what the recurrence finds is a least split
    recurrence::splits_stand(problem, scale);
    let n = ideals::list(problem.sheet, ideals).ok_or(Refusal::TooManyIdeals)?;
    solve(problem, scale, &ideals[0..n], ratings, choices)
}

ghost use Rattle.std.specs.Prelude.{◌≡◌, length, OnOk, OnErr};
ghost use Rattle.refusals.specs.Told.{outcome};
ghost use Rattle.split.specs.Problems.{net_of, kinds_of};
ghost use Rattle.recurrence.specs.Planned.{setting_over};
ghost use Rattle.table_pass.specs.Filled.{fill_refusal, Passed};

use super::passes::Pass;
use cells::{Choice, Rows, Tables};
use device::Kind;
use ideals::MOST_IDEALS;
use refusals::Refusal;
use scale::Scale;
use split::Problem;
use stage_memo::StageMemo;

// Fills the cells of these ideals, and leaves what lies beyond them. The setting is spelled out: `setting`, which has a name,
// is over all ideals of a sheet, and here they are what is handed over. The two tables are slices, as they are lent;
// the rest has one lifetime, since the pass holds all of it.
pub fn fill<'a, K: Kind, L: Kind, S: Scale>(
    problem: &'a Problem<'a, K, L>,
    scale: &'a S,
    ideals: &'a [u64],
    ratings: &mut [S::Rating],
    choices: &mut [Choice],
) -> Result<(), Refusal>
    ensures refuses { outcome result ≡ fill_refusal (net_of problem.now).k (net_of problem.now).l (length ideals.now) (length ratings.old) (length choices.old) }
    ensures fills { OnOk result (Passed (setting_over ideals.now (net_of problem.now) (kinds_of K.meaning L.meaning problem.now) (S.rules scale.now)) (net_of problem.now).k (net_of problem.now).l ratings.old choices.old ratings.new choices.new) }
    ensures keeps { OnErr result ((ratings.new ≡ ratings.old) × (choices.new ≡ choices.old)) }
{
    if ideals.len() > MOST_IDEALS {
        return Err(Refusal::TooManyIdeals);
    }
    let rows = Rows::new(scale, problem.sheet.counts());
    let cells = ideals.len() * rows.width();
    if ratings.len() < cells || choices.len() < cells {
        return Err(Refusal::TooFewCells);
    }
    let mut pass = Pass {
        problem,
        rows,
        memo: StageMemo::new(problem.sheet),
        ideals,
    };
    let mut tables = Tables { ratings, choices };
    pass.fill_rows(&mut tables);
    Ok(())
}

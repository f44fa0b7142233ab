ghost use Rattle.std.specs.Prelude.{◌≡◌, ◌<◌, ◌≤◌, true, length};
ghost use Rattle.split.specs.Problems.{net_of, kinds_of};
ghost use Rattle.recurrence.specs.Planned.{setting_over};
ghost use Rattle.table_pass.specs.Filled.{cell, cells_fit};
ghost use Rattle.best_split.specs.Traces.{Shown, Leads, Traces, rating_at, stages_to};

use super::Split;
use super::places::{LastStage, Place};
use cells::Choice;
use device::{Kind, WhichKind};
use scale::Scale;
use split::{Problem, Stage};

// The tables of some ideals, filled for a problem and a scale.
// That a cell lies within them is asked of it: a cell that knew so itself would have to hold the tables again.
// The setting is spelled out, as in the contracts that lead here: a name for it would stand between them and what they cite. The two tables are slices, as they are lent.
#[derive(Drop)]
pub(crate) struct FilledTables<'a, K: Kind, L: Kind, S: Scale> {
    pub(crate) problem: &'a Problem<'a, K, L>,
    pub(crate) scale: &'a S,
    pub(crate) ideals: &'a [u64],
    pub(crate) ratings: &'a [S::Rating],
    pub(crate) choices: &'a [Choice],
    ghost some: { 0 < length ideals.now },
    ghost few: { length ideals.now ≤ 4096 },
    ghost fit: { cells_fit (net_of problem.now).k (net_of problem.now).l (length ideals.now) (length ratings.now) (length choices.now) ≡ true },
    ghost shown: { Shown (setting_over ideals.now (net_of problem.now) (kinds_of K.meaning L.meaning problem.now) (S.rules scale.now)) (net_of problem.now).k (net_of problem.now).l ratings.now choices.now },
}

impl<K: Kind, L: Kind, S: Scale> FilledTables<'_, K, L, S> {
    ghost use Rattle.best_split.specs.Views.{stages_of};
    ghost use Rattle.best_split.specs.Tables.{network, setting_of, last_cell, HasCell};

    // The cell of the last ideal with all devices.
    fn last_cell(&self) -> Place
        ensures { result ≡ last_cell self.now }
    {
        let counts = self.problem.sheet.counts();
        Place {
            i: self.ideals.len() - 1,
            a: usize::from(counts.k),
            b: usize::from(counts.l),
        }
    }

    // Where a cell stands in both tables.
    fn index_of(&self, at: Place) -> usize
        requires here { HasCell self.now at }
        ensures value { result ≡ cell (network self.now).k (network self.now).l at.i at.a at.b }
        ensures rated { result < length self.now.ratings.now }
        ensures chosen { result < length self.now.choices.now }
    {
        let counts = self.problem.sheet.counts();
        let line = at.i * (usize::from(counts.k) + 1) + at.a;
        line * (usize::from(counts.l) + 1) + at.b
    }

    // The rating of the last cell, where one stands.
    pub(crate) fn rating(&self) -> Option<S::Rating>
        ensures { result ≡ rating_at (setting_of self.now) (last_cell self.now) }
    {
        let place = self.last_cell();
        let at = self.index_of(place);
        // the empty ideal has a rating and no choice
        let stands = place.i == 0 || !self.choices[at].is_none();
        stands.then_some(self.ratings[at])
    }

    // The ideal before a cell's last stage, and that stage's kind; none at the empty ideal, and where no rating stands.
    fn choice_at(&self, at: Place) -> Option<(usize, WhichKind)>
        requires here { HasCell self.now at }
        ensures { Leads (setting_of self.now) at result }
    {
        let choice = self.choices[self.index_of(at)];
        let kind = choice.which()?;
        Some((choice.ideal as usize, kind))
    }

    // The last stage on the way to a cell; none at the empty ideal.
    fn last(&self, at: Place) -> Option<LastStage>
        requires here { HasCell self.now at }
        ensures { Traces (setting_of self.now) at result }
    {
        let (i, kind) = self.choice_at(at)?;
        let stage = Stage {
            mask: self.ideals[at.i] - self.ideals[i],
            kind: u8::from(kind),
        };
        let before = match kind {
            WhichKind::First => Place {
                i,
                a: at.a - 1,
                b: at.b,
            },
            WhichKind::Second => Place {
                i,
                a: at.a,
                b: at.b - 1,
            },
        };
        Some(LastStage { stage, before })
    }

    // The stages of the last cell.
    pub(crate) fn split(&self) -> Split
        ensures { stages_of result ≡ stages_to (setting_of self.now) (last_cell self.now) }
    {
        // the room in fixed memory; a stage of no kind stands in none of the places that are told
        let mut stages = [Stage { mask: 0, kind: 0 }; 16];
        let mut first = stages.len();
        let mut at = self.last_cell();
        // each stage found says at which cell the one before it ends, so there is nothing to go over
        while let Some(last) = self.last(at) {
            first -= 1;
            stages[first] = last.stage;
            at = last.before;
        }
        Split { stages, first }
    }
}

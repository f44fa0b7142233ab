// The calls that only read.
ghost use Rattle.std.specs.Prelude.{◌≡◌, ◌≤◌, length, IfOk, OnErr, MatchResult};
ghost use Rattle.refusals.specs.Told.{outcome};
ghost use Rattle.sheet_writer.specs.Writes.{Writes, Keeps};
ghost use Rattle.std.specs.Option.{ForSome};
ghost use Rattle.split.specs.Splits.{At};
ghost use Rattle.split.specs.Problems.{net_of, kinds_of};
ghost use Rattle.pages.specs.Pages.{most_page, HasPage};
ghost use Rattle.planner.specs.Answers.{rating_answer, stage_answer, place_answer, margin_answer, page_told, page_text};

use super::Planner;
use best_split::Found;
use device::Kind;
use refusals::Refusal;
use scale::Scale;
use split::Problem;

// The most ticks of a pick time.
pub const MOST_PICK: u32 = 1_000_000_000;

impl<K: Kind, L: Kind, S: Scale> Planner<K, L, S> {
    ghost use Rattle.planner.specs.Views.{state, kinds_in, found_answer};

    // The split that stands.
    fn found(&self) -> Result<&Found<S::Rating>, Refusal>
        ensures { found_answer self.now result }
    {
        self.standing.as_ref().ok_or(Refusal::NoSplit)
    }

    // The rating of the split that stands.
    pub fn rating(&self) -> Result<S::Rating, Refusal>
        ensures { result ≡ rating_answer (state self.now).standing }
    {
        Ok(self.found()?.rating)
    }

    // The kind of a stage, its mask, and how many operators it has. Stages count from 0.
    pub fn stage(&self, i: usize) -> Result<(u8, u64, u32), Refusal>
        ensures { result ≡ stage_answer (state self.now).standing i }
    {
        let stages = self.found()?.split.stages();
        let stage = stages.get(i).ok_or(Refusal::NoStage)?;
        Ok((stage.kind, stage.mask, sets::size(stage.mask)))
    }

    // The number of the stage that holds an operator.
    pub fn place(&self, v: usize) -> Result<usize, Refusal>
        ensures value { result ≡ place_answer (state self.now).net (state self.now).standing v }
        ensures holds { IfOk result (λ i. ForSome (state self.now).standing (λ split. At split.stages i v)) }
    {
        let stages = self.found()?.split.stages();
        if v >= self.sheet.operators() {
            return Err(Refusal::NoOperator);
        }
        stages
            .iter()
            .position(|stage| sets::holds(stage.mask, v))
            .ok_or(Refusal::NoOperator)
    }

    // What splits of the sheet are made for.
    pub(crate) fn problem(&self) -> Problem<'_, K, L>
        ensures { (net_of result ≡ (state self.now).net) × (kinds_of K.meaning L.meaning result ≡ kinds_in self.now) }
    {
        Problem {
            sheet: &self.sheet,
            first: &self.first,
            second: &self.second,
        }
    }

    // How many ticks a pick may take beyond the pace of the split that stands; below 0 where the split is too slow.
    pub fn margin(&self, pick: u32) -> Result<i64, Refusal>
        ensures { result ≡ margin_answer (state self.now).net (kinds_in self.now) (state self.now).standing pick }
    {
        let found = self.found()?;
        if pick > MOST_PICK {
            return Err(Refusal::AboveLimit);
        }
        let pace = pages::pace(&self.problem(), found.split.stages());
        Ok(i64::from(pick) - i64::from(pace))
    }

    // Writes the page of the split that stands to the front of the buffer and answers its length. A refusal leaves the buffer as it is.
    pub fn page(&self, buffer: &mut [u8]) -> Result<usize, Refusal>
        ensures refuses { outcome result ≡ page_told (state self.now).net (kinds_in self.now) (state self.now).standing (length buffer.old) }
        ensures answers { IfOk result (HasPage (page_text (state self.now).net (kinds_in self.now) (state self.now).standing) buffer.old buffer.new) }
        ensures keeps { OnErr result (buffer.new ≡ buffer.old) }
        ensures short { length (page_text (state self.now).net (kinds_in self.now) (state self.now).standing) ≤ most_page }
    {
        let found = self.found()?;
        pages::write_page(&self.problem(), &found.split, buffer)
    }

    // Writes the sheet's file to the front of the buffer and answers its length. A refusal leaves the buffer as it is.
    pub fn write(&self, buffer: &mut [u8]) -> Result<usize, Refusal>
        ensures { MatchResult result (Writes (state self.now).net buffer.old buffer.new) (Keeps (state self.now).net buffer.old buffer.new) }
    {
        sheet_file::write(&self.sheet, buffer)
    }
}

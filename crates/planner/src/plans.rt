// Planning: a least split of the present sheet is found, and stands from then on.
ghost use Rattle.std.specs.Prelude.{List, ◌∷◌, length};
ghost use Rattle.planner.specs.Plans.{Plans};

use super::Planner;
use best_split::find;
use cells::Choice;
use device::Kind;
use refusals::Refusal;
use scale::Scale;
use split::Problem;

// What is answered of a split: its rating, how many stages it has, and how many ideals the sheet has.
#[derive(Clone, Copy, PartialEq, Eq, Debug)]
pub struct Plan<R> {
    pub rating: R,
    pub stages: usize,
    pub ideals: usize,
}

impl<K: Kind, L: Kind, S: Scale> Planner<K, L, S> {
    ghost use Rattle.planner.specs.declared.calls.Call.TheVariants as calls;
    ghost use Rattle.planner.specs.Views.{state, kinds_in, rules_in};
    ghost use Rattle.planner.specs.Law.{Event, event, by_plan, Holds};

    // Finds a least split of the sheet by way of three tables that are lent, and sets it up. A refusal leaves the split that stood.
    #[tactic(auto, using(crate::proofs::Laws::after_plan))]
    pub fn plan(
        &mut self,
        ideals: &mut [u64],
        ratings: &mut [S::Rating],
        choices: &mut [Choice],
    ) -> Result<Plan<S::Rating>, Refusal>
        ensures plans { Plans (kinds_in self.old) (rules_in self.old) ideals.old ideals.new ratings.old choices.old ratings.new choices.new (state self.old) (state self.new) result }
        ensures law { (h : List (Event S.Rating)) → Holds (kinds_in self.old) (rules_in self.old) h (state self.old) → Holds (kinds_in self.old) (rules_in self.old) (event (calls.Plan (length ideals.old) (length ratings.old) (length choices.old)) (by_plan result) ∷ h) (state self.new) }
    {
        // spelled out and not by `problem`: the proof of what is promised takes the parts as they stand
        let problem = Problem {
            sheet: &self.sheet,
            first: &self.first,
            second: &self.second,
        };
        let found = find(&problem, &self.scale, ideals, ratings, choices)?;
        let plan = Plan {
            rating: found.rating,
            stages: found.split.stages().len(),
            ideals: found.ideals,
        };
        self.standing = Some(found);
        Ok(plan)
    }
}

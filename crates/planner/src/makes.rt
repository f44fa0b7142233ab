// A call that is given as a value is made.
ghost use Rattle.std.specs.Prelude.{◌≡◌, List, ◌∷◌, length};

use super::{Call, Granted, Planner};
use cells::Choice;
use device::Kind;
use refusals::Refusal;
use scale::Scale;
use sheet::Operator;

// The figures of an operator once more: a call is lent, and its operator is kept.
fn again(operator: &Operator) -> Operator
    ensures { result ≡ operator.now }
{
    Operator {
        acc: operator.acc,
        cpu: operator.cpu,
        size: operator.size,
        link: operator.link,
    }
}

impl<K: Kind, L: Kind, S: Scale> Planner<K, L, S> {
    ghost use Rattle.planner.specs.Views.{state, kinds_in, rules_in};
    ghost use Rattle.planner.specs.Law.{Event, event, Holds};
    ghost use Rattle.planner.specs.Runs.{handed, Makes};

    // Makes a call. A plan is handed the front of each table, as long as the call names, or the whole table where that is shorter.
    pub fn make(
        &mut self,
        call: &Call<'_>,
        ideals: &mut [u64],
        ratings: &mut [S::Rating],
        choices: &mut [Choice],
    ) -> Result<Granted<S::Rating>, Refusal>
        ensures makes { Makes (kinds_in self.old) (rules_in self.old) ideals.old ideals.new ratings.old choices.old ratings.new choices.new (state self.old) (state self.new) call.now result }
        ensures law { (h : List (Event S.Rating)) → Holds (kinds_in self.old) (rules_in self.old) h (state self.old) → Holds (kinds_in self.old) (rules_in self.old) (event (handed (length ideals.old) (length ratings.old) (length choices.old) call.now) result ∷ h) (state self.new) }
        ensures keeps { ((state self.new).first ≡ (state self.old).first) × ((state self.new).second ≡ (state self.old).second) × ((state self.new).scale ≡ (state self.old).scale) }
    {
        match call {
            Call::Add(operator) => {
                let v = self.add(again(operator))?;
                Ok(Granted::Added(v))
            }
            Call::Join { from, to } => {
                self.join(*from, *to)?;
                Ok(Granted::Changed)
            }
            Call::Retime { operator, figures } => {
                self.retime(*operator, figures)?;
                Ok(Granted::Changed)
            }
            Call::Count { k, l } => {
                self.count(*k, *l)?;
                Ok(Granted::Changed)
            }
            Call::Load(file) => {
                self.load(file)?;
                Ok(Granted::Changed)
            }
            Call::Clear => {
                self.clear();
                Ok(Granted::Changed)
            }
            Call::Plan {
                ideals: x,
                ratings: y,
                choices: z,
            } => {
                let x = (*x).min(ideals.len());
                let y = (*y).min(ratings.len());
                let z = (*z).min(choices.len());
                let plan = self.plan(&mut ideals[..x], &mut ratings[..y], &mut choices[..z])?;
                Ok(Granted::Planned(plan))
            }
        }
    }
}

// A list of calls worked off on a new planner.
ghost use Rattle.std.specs.Prelude.{◌≡◌, true, length, map, is_some};
ghost use Rattle.std.specs.List.{All};
ghost use Rattle.planner.specs.Views.{state, kinds_in, rules_in};
ghost use Rattle.planner.specs.States.{fresh};
ghost use Rattle.planner.specs.Law.{Holds};
ghost use Rattle.planner.specs.Runs.{call_of, history, lent, Ran};

use super::{Planner, Step};
use cells::Choice;
use device::Kind;
use scale::Scale;

// Makes each call, in order, on a new planner, and notes beside it what came back. Plans are handed fronts of the three tables.
pub fn run<K: Kind, L: Kind, S: Scale>(
    first: K,
    second: L,
    scale: S,
    steps: &mut [Step<'_, S::Rating>],
    ideals: &mut [u64],
    ratings: &mut [S::Rating],
    choices: &mut [Choice],
) -> Planner<K, L, S>
    ensures law { Holds (kinds_in result) (rules_in result) (history (length ideals.old) (length ratings.old) (length choices.old) steps.new) (state result) }
    ensures keeps { ((state result).first ≡ first) × ((state result).second ≡ second) × ((state result).scale ≡ scale) }
    ensures ran { Ran (kinds_in result) (rules_in result) steps.new (lent ideals.old ratings.old choices.old) (fresh first second scale) (lent ideals.new ratings.new choices.new) (state result) }
    ensures calls { map call_of steps.new ≡ map call_of steps.old }
    ensures answers { All (λ step. is_some step.answer ≡ true) steps.new }
{
    let mut planner = Planner::new(first, second, scale);
    for step in steps.iter_mut() {
        let answer = planner.make(&step.call, ideals, ratings, choices);
        step.answer = Some(answer);
    }
    planner
}

// The recurrence over the ideals of a network, and that it finds a least split.
#![tactic(auto)]

ghost use Rattle.split.specs.Problems.{net_of, kinds_of};
ghost use Rattle.recurrence.specs.Cases.{Cases};
ghost use Rattle.recurrence.specs.Chosen.{FollowsOn};
ghost use Rattle.recurrence.specs.Planned.{Planned};

use device::Kind;
use scale::Scale;
use split::Problem;

// On every scale the recurrence chooses a least candidate: of equal ones that from the smallest index, then that of kind 1.
pub fn choices_stand<S: Scale>(scale: &S)
    ensures { FollowsOn (S.rules scale.now) }
{}

// For every problem and scale, the recurrence finds a least split exactly if there is a lawful one.
pub fn splits_stand<K: Kind, L: Kind, S: Scale>(problem: &Problem<'_, K, L>, scale: &S)
    ensures { Planned (net_of problem.now) (kinds_of K.meaning L.meaning problem.now) (S.rules scale.now) }
{
    // for its contract: every sheet keeps its rules
    problem.sheet.operators();
}

// The diamond's cells, as a reader can find them by hand, and that its split is least.
pub fn cases_stand()
    ensures { Cases }
{}

ghost use Rattle.std.specs.Prelude.{◌≡◌};
ghost use Rattle.split.specs.Problems.{net_of, kinds_of};
ghost use Rattle.pages.specs.Paces.{ticks_in, pace_of, IsPace};

use device::{Kind, WhichKind};
use split::{Problem, Stage};

// The ticks that the kind of a stage answers for its operators; 0 where it answers nothing.
fn ticks<K: Kind, L: Kind>(problem: &Problem<'_, K, L>, stage: &Stage) -> u32
    ensures { result ≡ ticks_in (net_of problem.now) (kinds_of K.meaning L.meaning problem.now) stage.now }
{
    let Ok(kind) = WhichKind::try_from(stage.kind) else {
        return 0;
    };
    match problem.ask(kind, stage.mask) {
        Some(load) => load.ticks,
        None => 0,
    }
}

// The largest ticks among the stages.
pub fn pace<K: Kind, L: Kind>(problem: &Problem<'_, K, L>, stages: &[Stage]) -> u32
    ensures value { result ≡ pace_of (net_of problem.now) (kinds_of K.meaning L.meaning problem.now) stages.now }
    ensures largest { IsPace (net_of problem.now) (kinds_of K.meaning L.meaning problem.now) stages.now result }
{
    let mut pace = 0;
    for stage in stages {
        pace = pace.max(ticks(problem, stage));
    }
    pace
}

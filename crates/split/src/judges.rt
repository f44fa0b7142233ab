// A judge of any list of stages.
ghost use Rattle.std.specs.Prelude.{◌≡◌, false, IfOk, Some};
ghost use Rattle.sets.specs.Sets.{meeting};
ghost use Rattle.device.specs.Views.{load_of, answered};
ghost use Rattle.device.specs.WhichKinds.{kind_number};
ghost use Rattle.split.specs.Splits.{asked};
ghost use Rattle.split.specs.Problems.{net_of, kinds_of};
ghost use Rattle.split.specs.Breaches.{back, breached, stage_breach};
ghost use Rattle.split.specs.Judged.{Judged};

use super::walks::Walk;
use super::{Breach, Problem, Stage};
use device::{Kind, Load, WhichKind};
use scale::Scale;

impl<K: Kind, L: Kind> Problem<'_, K, L> {
    // Whether an edge leads from a set into the operators of earlier stages, none of which it has.
    #[tactic(auto, using(crate::proofs::Backs::back_is))]
    fn is_back(&self, mask: u64, placed: u64) -> bool
        requires { meeting mask placed ≡ false }
        ensures { result ≡ back (net_of self.now) mask placed }
    {
        sets::is_meeting(mask, self.sheet.feeding(placed))
    }

    // What a device kind answers for a set as a stage.
    pub fn ask(&self, kind: WhichKind, mask: u64) -> Option<Load>
        ensures { answered result ≡ asked (net_of self.now) (kinds_of K.meaning L.meaning self.now) (kind_number kind) mask }
    {
        let figures = self.sheet.figures(mask);
        match kind {
            WhichKind::First => self.first.load(&figures),
            WhichKind::Second => self.second.load(&figures),
        }
    }

    // The kind and the load of stage `i` after a walk over the stages before it, or the first rule that it breaks.
    fn examine(&self, walk: &Walk, i: usize, stage: &Stage) -> Result<(WhichKind, Load), Breach>
        ensures refuses { breached result ≡ stage_breach (net_of self.now) (kinds_of K.meaning L.meaning self.now) walk.now i stage.now }
        ensures kind { IfOk result (λ r. kind_number r.0 ≡ stage.now.kind) }
        ensures loads { IfOk result (λ r. asked (net_of self.now) (kinds_of K.meaning L.meaning self.now) stage.now.kind stage.now.mask ≡ Some (load_of r.1)) }
    {
        if stage.mask == 0 {
            return Err(Breach::EmptyStage(i));
        }
        if !sets::is_inside(stage.mask, self.sheet.all()) {
            return Err(Breach::ForeignOperator(i));
        }
        if sets::is_meeting(stage.mask, walk.placed) {
            return Err(Breach::RepeatedOperator(i));
        }
        if self.is_back(stage.mask, walk.placed) {
            return Err(Breach::EdgeBack(i));
        }
        let kind = WhichKind::try_from(stage.kind).map_err(|_| Breach::DoesNotFit(i))?;
        let load = self.ask(kind, stage.mask).ok_or(Breach::DoesNotFit(i))?;
        let counts = self.sheet.counts();
        match kind {
            WhichKind::First if walk.first >= usize::from(counts.k) => {
                Err(Breach::TooManyOfFirst(i))
            }
            WhichKind::Second if walk.second >= usize::from(counts.l) => {
                Err(Breach::TooManyOfSecond(i))
            }
            _ => Ok((kind, load)),
        }
    }

    // Judges a list of stages handed over by anyone: its rating on a scale if it is a lawful split, or the first rule that it breaks.
    #[tactic(auto, using(crate::proofs::Judging::judging))]
    pub fn judge<S: Scale>(&self, scale: &S, stages: &[Stage]) -> Result<S::Rating, Breach>
        ensures { Judged (net_of self.now) (kinds_of K.meaning L.meaning self.now) (S.rules scale.now) stages.now result }
    {
        let mut walk = Walk::default();
        let mut rating = scale.start();
        for (i, stage) in stages.iter().enumerate() {
            let (kind, load) = self.examine(&walk, i, stage)?;
            rating = scale.join(rating, &load);
            walk = walk.with(kind, stage.mask);
        }
        if walk.placed != self.sheet.all() {
            return Err(Breach::MissingOperator);
        }
        Ok(rating)
    }
}

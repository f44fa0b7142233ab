ghost use Rattle.std.specs.Option.{ForSome};
ghost use Rattle.sheet.specs.Views.{net};
ghost use Rattle.best_split.specs.Views.{stages_of};
ghost use Rattle.planner.specs.States.{Covers};

use best_split::Found;
use device::Kind;
use scale::Scale;
use sheet::Sheet;

// A sheet, two device kinds, a scale, and the split that stands, if one does.
// Its kinds and its scale are its own: no call hands them out to be changed.
#[derive(Drop)]
pub struct Planner<K: Kind, L: Kind, S: Scale> {
    pub(crate) sheet: Sheet,
    pub(crate) first: K,
    pub(crate) second: L,
    pub(crate) scale: S,
    pub(crate) standing: Option<Found<S::Rating>>,
    ghost covers: { ForSome standing (λ found. Covers (net sheet) (stages_of found.split)) },
}

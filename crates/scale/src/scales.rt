ghost use Rattle.std.specs.Prelude.{◌≡◌, true, false};
ghost use Rattle.device.specs.Loads.{PlainLoad, Fair};
ghost use Rattle.device.specs.Views.{load_of};
ghost use Rattle.scale.specs.Rules.{Rules};

use device::Load;

// A scale, with a type of ratings of its own.
pub trait Scale {
    type Rating: Copy;

    // its order, its start and its joining
    ghost rules: { Self → Rules Self.Rating };

    // Whether a rating is at most another. A scale may order them by its own state, so this is not their own `<=`.
    fn is_at_most(&self, x: Self::Rating, y: Self::Rating) -> bool
        ensures { result ≡ (rules self.now).at_most x y };

    // The rating of no stage.
    fn start(&self) -> Self::Rating
        ensures { result ≡ (rules self.now).start };

    // A rating with one load more.
    fn join(&self, rating: Self::Rating, load: &Load) -> Self::Rating
        ensures { result ≡ (rules self.now).joined rating (load_of load.now) };

    // any two ratings compare, each way only where they are the same, and through a third
    ghost total: { (scale : Self) (x y : Self.Rating) → (rules scale).at_most x y ≡ false → (rules scale).at_most y x ≡ true };

    ghost antisymmetric: { (scale : Self) (x y : Self.Rating) → (rules scale).at_most x y ≡ true → (rules scale).at_most y x ≡ true → x ≡ y };

    ghost transitive: { (scale : Self) (x y z : Self.Rating) → (rules scale).at_most x y ≡ true → (rules scale).at_most y z ≡ true → (rules scale).at_most x z ≡ true };

    // joining the same load keeps the order
    ghost monotone: { (scale : Self) (x y : Self.Rating) (z : PlainLoad) → Fair z → (rules scale).at_most x y ≡ true → (rules scale).at_most ((rules scale).joined x z) ((rules scale).joined y z) ≡ true };
}

ghost use Rattle.std.specs.Prelude.{◌≤◌, Some};
ghost use Rattle.device.specs.Limits.{most_load};

use std::fmt;

// What a stage costs on a device: ticks, and the ticks of them that move data.
#[derive(Clone, Copy, PartialEq, Eq, Debug)]
pub struct Load {
    pub ticks: u32,
    pub link: u32,
    ghost fair: { (ticks ≤ most_load) × (link ≤ most_load) },
}

// Both numbers, each after its name.
impl fmt::Display for Load {
    ghost use Rattle.device.specs.Views.{load_of};
    ghost use Rattle.device.specs.Spelled.{spelled_load};

    ghost output = { λ load. Some (spelled_load (load_of load)) };

    fn fmt<W: fmt::Write>(&self, f: &mut fmt::Formatter<W>) -> fmt::Result {
        write!(f, "ticks {} link {}", self.ticks, self.link)
    }
}

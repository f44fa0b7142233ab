// What a stage of a draft costs on a device, summed anew.
use super::drafts::{Draft, Row};
use super::randoms::Random;
use device::{Accelerator, Kind, Processor};
use refusals::Refusal;

// The ticks of a stage, and those of them that move data.
#[derive(Clone, Copy)]
pub(crate) struct Cost {
    pub(crate) ticks: u32,
    pub(crate) link: u32,
}

// A kind of device that can be drawn, and what a stage costs on it by this test's own sums.
pub(crate) trait Drawn: Kind + Copy {
    fn draw(random: &mut Random) -> Result<Self, Refusal>;

    fn cost(&self, draft: &Draft, set: u64) -> Option<Cost>;
}

// The ticks to move what a set takes in, from each operator once, and what it hands out.
fn link_of(draft: &Draft, set: u64) -> u32 {
    let is_moved = |row: &&Row| {
        if row.is_in(set) {
            row.successors & !set != 0
        } else {
            row.successors & set != 0
        }
    };
    draft
        .rows()
        .iter()
        .filter(is_moved)
        .fold(0, |sum: u32, row| sum.saturating_add(u32::from(row.link)))
}

// One figure, summed over a set.
fn sum_of<F: Fn(&Row) -> u8>(draft: &Draft, set: u64, figure: F) -> u32
    requires { F.IsAlwaysCallable figure }
{
    draft.rows().iter().filter(|row| row.is_in(set)).fold(
        0,
        |sum: u32, row| sum.saturating_add(u32::from(figure(row))),
    )
}

impl Drawn for Accelerator {
    // All six operators together need 18 at most.
    fn draw(random: &mut Random) -> Result<Self, Refusal> {
        Accelerator::new(u32::from(random.below(10)))
    }

    fn cost(&self, draft: &Draft, set: u64) -> Option<Cost> {
        if sum_of(draft, set, |row| row.size) > self.limit() {
            return None;
        }
        let link = link_of(draft, set);
        let ticks = sum_of(draft, set, |row| row.acc).saturating_add(link);
        Some(Cost { ticks, link })
    }
}

impl Drawn for Processor {
    fn draw(_random: &mut Random) -> Result<Self, Refusal> {
        Ok(Processor)
    }

    fn cost(&self, draft: &Draft, set: u64) -> Option<Cost> {
        let ticks = sum_of(draft, set, |row| row.cpu);
        Some(Cost { ticks, link: 0 })
    }
}

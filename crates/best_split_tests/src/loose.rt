// Operators without edges, on one device: twelve have as many ideals as any table takes, and thirteen have more.
use super::sheets::loose;
use best_split::find;
use cells::Choice;
use device::{Accelerator, Processor};
use refusals::Refusal;
use scale::Peak;
use split::Problem;
use std::test::Fail;

// A place more than is needed.
const IDEALS: usize = 4097;

const CELLS: usize = 8192;

#[test]
fn twelve_loose_operators(rt: HostRuntime) -> Result<(), Fail> {
    let problem = Problem {
        sheet: &loose(12)?,
        first: &Accelerator::new(12)?,
        second: &Processor,
    };
    let mut ideals = [9; IDEALS];
    let mut ratings = [9; CELLS];
    let mut choices = [Choice::NONE; CELLS];
    let found = find(
        &problem,
        &Peak,
        &mut ideals[..4096],
        &mut ratings,
        &mut choices,
    )?;
    assert_eq!(rt; found.rating, 12);
    assert_eq!(rt; found.ideals, 4096);
    assert_eq!(rt; found.split.stages().len(), 1);
    assert_eq!(rt; ideals[4095], 0xfff);
    assert_eq!(rt; ideals[4096], 9);
    Ok(())
}

#[test]
fn thirteen_loose_operators(rt: HostRuntime) -> Result<(), Fail> {
    let problem = Problem {
        sheet: &loose(13)?,
        first: &Accelerator::new(13)?,
        second: &Processor,
    };
    let mut ideals = [9; IDEALS];
    let mut ratings = [9; CELLS];
    let mut choices = [Choice::NONE; CELLS];
    let refusal = find(&problem, &Peak, &mut ideals, &mut ratings, &mut choices).err();
    assert_eq!(rt; refusal, Some(Refusal::TooManyIdeals));
    assert_eq!(rt; ideals[4095], 0xfff);
    assert_eq!(rt; ideals[4096], 9);
    Ok(())
}

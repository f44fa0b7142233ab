// Plans in tables of each length around what is needed.
use super::planners::{diamond, empty, plan};
use cells::Choice;
use planner::Plan;
use refusals::Refusal;
use std::test::Fail;

const LEAST: Plan<u32> = Plan {
    rating: 8,
    stages: 2,
    ideals: 6,
};

#[test]
fn just_enough_cells(rt: HostRuntime) -> Result<(), Fail> {
    let mut planner = diamond(2, 0)?;
    let answer = planner.plan(&mut [0; 6], &mut [0; 18], &mut [Choice::NONE; 18]);
    assert_eq!(rt; answer, Ok(LEAST));
    assert_eq!(rt; planner.rating(), Ok(8));
    Ok(())
}

#[test]
fn one_cell_less(rt: HostRuntime) -> Result<(), Fail> {
    let mut planner = diamond(2, 0)?;
    let mut ideals = [9; 6];
    let mut ratings = [9; 18];
    let mut choices = [Choice::NONE; 18];
    let fewer_ratings = planner.plan(&mut ideals, &mut ratings[..17], &mut choices);
    assert_eq!(rt; fewer_ratings, Err(Refusal::TooFewCells));
    let fewer_choices = planner.plan(&mut ideals, &mut ratings, &mut choices[..17]);
    assert_eq!(rt; fewer_choices, Err(Refusal::TooFewCells));
    assert_eq!(rt; ideals, [0, 1, 3, 5, 7, 15]);
    assert_eq!(rt; ratings, [9; 18]);
    assert_eq!(rt; planner.rating(), Err(Refusal::NoSplit));
    Ok(())
}

// The table of ideals is looked at before the cells, and cells before what is lawful.
#[test]
fn one_ideal_less(rt: HostRuntime) -> Result<(), Fail> {
    let mut planner = diamond(0, 0)?;
    let mut ideals = [9; 6];
    let answer = planner.plan(&mut ideals[..5], &mut [9; 0], &mut [Choice::NONE; 0]);
    assert_eq!(rt; answer, Err(Refusal::TooManyIdeals));
    assert_eq!(rt; ideals, [0, 1, 3, 5, 7, 9]);
    let answer = planner.plan(&mut ideals, &mut [9; 5], &mut [Choice::NONE; 6]);
    assert_eq!(rt; answer, Err(Refusal::TooFewCells));
    let answer = planner.plan(&mut ideals, &mut [9; 6], &mut [Choice::NONE; 6]);
    assert_eq!(rt; answer, Err(Refusal::NoLawfulSplit));
    Ok(())
}

#[test]
fn the_empty_sheet(rt: HostRuntime) -> Result<(), Fail> {
    let mut planner = empty()?;
    let answer = planner.plan(&mut [0; 0], &mut [9; 1], &mut [Choice::NONE; 1]);
    assert_eq!(rt; answer, Err(Refusal::TooManyIdeals));
    let answer = planner.plan(&mut [9; 1], &mut [9; 0], &mut [Choice::NONE; 1]);
    assert_eq!(rt; answer, Err(Refusal::TooFewCells));
    let answer = planner.plan(&mut [9; 1], &mut [9; 1], &mut [Choice::NONE; 1]);
    let none = Plan {
        rating: 0,
        stages: 0,
        ideals: 1,
    };
    assert_eq!(rt; answer, Ok(none));
    assert_eq!(rt; planner.stage(0), Err(Refusal::NoStage));
    assert_eq!(rt; planner.place(0), Err(Refusal::NoOperator));
    assert_eq!(rt; planner.margin(0), Ok(0));
    Ok(())
}

#[test]
fn a_refused_plan_leaves_the_split_that_stands(rt: HostRuntime) -> Result<(), Fail> {
    let mut planner = diamond(2, 0)?;
    assert_eq!(rt; plan(&mut planner), Ok(LEAST));
    let answer = planner.plan(&mut [0; 0], &mut [9; 18], &mut [Choice::NONE; 18]);
    assert_eq!(rt; answer, Err(Refusal::TooManyIdeals));
    let answer = planner.plan(&mut [0; 6], &mut [9; 0], &mut [Choice::NONE; 18]);
    assert_eq!(rt; answer, Err(Refusal::TooFewCells));
    assert_eq!(rt; planner.rating(), Ok(8));
    assert_eq!(rt; planner.stage(1), Ok((1, 0b1100, 2)));
    // and a plan that follows answers the same
    assert_eq!(rt; plan(&mut planner), Ok(LEAST));
    Ok(())
}

#[test]
fn nothing_fits_without_devices(rt: HostRuntime) -> Result<(), Fail> {
    for (k, l, answer) in [
        (0, 0, Err(Refusal::NoLawfulSplit)),
        (1, 0, Err(Refusal::NoLawfulSplit)),
        (0, 1, Ok(28)),
        (2, 0, Ok(8)),
    ] {
        let planned = plan(&mut diamond(k, l)?);
        assert_eq!(rt; planned.map(|plan| plan.rating), answer, "{k} and {l}");
    }
    Ok(())
}

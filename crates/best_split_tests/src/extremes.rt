// A kind on which nothing fits, and a scale that rates all alike.
use super::peaks::peak;
use super::sheets::diamond;
use best_split::find;
use cells::Choice;
use device::Processor;
use refusals::Refusal;
use sheet::Sheet;
use split::Problem;
use split_tests::{Alike, Nothing};
use std::test::Fail;

#[test]
fn a_kind_on_which_nothing_fits(rt: HostRuntime) -> Result<(), Fail> {
    let sheet = diamond(2, 2)?;
    let neither = peak(&sheet, &Nothing, &Nothing).err();
    assert_eq!(rt; neither, Some(Refusal::NoLawfulSplit));
    let second = peak(&sheet, &Nothing, &Processor)?;
    assert_eq!(rt; second.rating, 14);
    assert!(rt; second.split.stages().iter().all(|stage| stage.kind == 2));
    let first = peak(&sheet, &Processor, &Nothing)?;
    assert_eq!(rt; first.rating, 14);
    assert!(rt; first.split.stages().iter().all(|stage| stage.kind == 1));
    Ok(())
}

#[test]
fn an_empty_sheet_needs_no_device(rt: HostRuntime) -> Result<(), Fail> {
    let found = peak(&Sheet::new(), &Nothing, &Nothing)?;
    assert_eq!(rt; found.rating, 0);
    assert!(rt; found.split.stages().is_empty());
    Ok(())
}

// Of splits that all rate alike, the one that is found is lawful.
#[test]
fn a_scale_that_rates_all_alike(rt: HostRuntime) -> Result<(), Fail> {
    let problem = Problem {
        sheet: &diamond(2, 2)?,
        first: &Processor,
        second: &Processor,
    };
    let found = find(
        &problem,
        &Alike,
        &mut [0; 6],
        &mut [(); 54],
        &mut [Choice::NONE; 54],
    )?;
    assert_eq!(rt; problem.judge(&Alike, found.split.stages()), Ok(()));
    Ok(())
}

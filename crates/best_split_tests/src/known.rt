// Least splits that a reader can find by hand.
use super::peaks::peak;
use super::sheets::{diamond, single};
use best_split::find;
use cells::Choice;
use device::WhichKind::{First, Second};
use device::{Accelerator, Processor, WhichKind};
use refusals::Refusal;
use scale::Line;
use sheet::Sheet;
use split::{Problem, Stage};
use std::test::Fail;

// As other crates of tests make their stages, for the same reason as their sheets.
fn on(kind: WhichKind, mask: u64) -> Stage {
    Stage {
        mask,
        kind: kind.into(),
    }
}

#[test]
fn no_operator(rt: HostRuntime) -> Result<(), Fail> {
    let found = peak(&Sheet::new(), &Processor, &Processor)?;
    assert_eq!(rt; found.rating, 0);
    assert_eq!(rt; found.ideals, 1);
    assert!(rt; found.split.stages().is_empty());
    Ok(())
}

#[test]
fn one_operator(rt: HostRuntime) -> Result<(), Fail> {
    let refused = Err(Refusal::NoLawfulSplit);
    for (k, l, limit, rating) in [
        (0, 0, 4, refused),
        (0, 1, 4, Ok(9)),
        (1, 0, 4, Ok(3)),
        (1, 0, 3, refused),
        (1, 1, 3, Ok(9)),
        (1, 1, 4, Ok(3)),
    ] {
        let found = peak(&single(k, l)?, &Accelerator::new(limit)?, &Processor);
        assert_eq!(rt;
            found.map(|found| found.rating),
            rating,
            "{k} and {l}, limit {limit}"
        );
    }
    Ok(())
}

#[test]
fn the_diamond_in_two_stages(rt: HostRuntime) -> Result<(), Fail> {
    for (k, l, limit, rating, stages) in [
        (2, 0, 4, 8, [on(First, 0b0011), on(First, 0b1100)]),
        (1, 1, 3, 13, [on(First, 0b0101), on(Second, 0b1010)]),
    ] {
        let found = peak(&diamond(k, l)?, &Accelerator::new(limit)?, &Processor)?;
        assert_eq!(rt; found.rating, rating);
        assert_eq!(rt; found.ideals, 6);
        assert_eq!(rt; found.split.stages(), stages.as_slice());
    }
    Ok(())
}

#[test]
fn the_diamond_in_one_stage(rt: HostRuntime) -> Result<(), Fail> {
    let problem = Problem {
        sheet: &diamond(2, 0)?,
        first: &Accelerator::new(6)?,
        second: &Processor,
    };
    let found = find(
        &problem,
        &Line,
        &mut [0; 6],
        &mut [0; 18],
        &mut [Choice::NONE; 18],
    )?;
    assert_eq!(rt; found.rating, 11);
    assert_eq!(rt; found.split.stages(), [on(First, 0b1111)].as_slice());
    Ok(())
}

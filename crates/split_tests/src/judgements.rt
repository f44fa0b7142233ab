// The judge on good and bad splits.
use super::{Alike, Nothing};
use device::WhichKind::{First, Second};
use device::{Accelerator, Processor, WhichKind};
use refusals::Refusal;
use scale::{Line, Pair, PairRating, Peak};
use sheet::{Operator, Sheet};
use split::{Breach, Problem, Stage};
use std::test::Fail;

// The diamond: edges 0 to 1, 0 to 2, 1 to 3 and 2 to 3.
// Each crate of tests makes its sheets itself: a crate for a few lines would need contracts and edits of its own, and be longer than they are.
fn diamond(k: u8, l: u8) -> Result<Sheet, Refusal> {
    let mut sheet = Sheet::new();
    for (acc, cpu, size) in [(2, 6, 1), (4, 8, 2), (3, 9, 2), (2, 5, 1)] {
        sheet.add(Operator {
            acc,
            cpu,
            size,
            link: 1,
        })?;
    }
    for (from, to) in [(0, 1), (0, 2), (1, 3), (2, 3)] {
        sheet.join(from, to)?;
    }
    sheet.count(k, l)?;
    Ok(sheet)
}

fn on(kind: WhichKind, mask: u64) -> Stage {
    Stage {
        mask,
        kind: kind.into(),
    }
}

// On an accelerator with this limit and a processor, on the scale of peaks.
fn judged(sheet: &Sheet, limit: u32, stages: &[Stage]) -> Option<Result<u32, Breach>> {
    let problem = Problem {
        sheet,
        first: &Accelerator::new(limit).ok()?,
        second: &Processor,
    };
    Some(problem.judge(&Peak, stages))
}

#[test]
fn two_stages_on_accelerators(rt: HostRuntime) -> Result<(), Fail> {
    let sheet = diamond(2, 0)?;
    let problem = Problem {
        sheet: &sheet,
        first: &Accelerator::new(4)?,
        second: &Processor,
    };
    let stages = [on(First, 0b0011), on(First, 0b1100)];
    assert_eq!(rt; problem.judge(&Peak, &stages), Ok(8));
    assert_eq!(rt; problem.judge(&Line, &stages), Ok(15));
    assert_eq!(rt;
        problem.judge(&Pair, &stages),
        Ok(PairRating { ticks: 8, link: 2 })
    );
    Ok(())
}

#[test]
fn a_stage_on_each_kind(rt: HostRuntime) -> Result<(), Fail> {
    let sheet = diamond(1, 1)?;
    let problem = Problem {
        sheet: &sheet,
        first: &Accelerator::new(3)?,
        second: &Processor,
    };
    let stages = [on(First, 0b0101), on(Second, 0b1010)];
    assert_eq!(rt; problem.judge(&Peak, &stages), Ok(13));
    assert_eq!(rt; problem.judge(&Line, &stages), Ok(20));
    assert_eq!(rt;
        problem.judge(&Pair, &stages),
        Ok(PairRating { ticks: 13, link: 0 })
    );
    Ok(())
}

#[test]
fn one_stage_and_none(rt: HostRuntime) -> Result<(), Fail> {
    let sheet = diamond(2, 0)?;
    let problem = Problem {
        sheet: &sheet,
        first: &Accelerator::new(6)?,
        second: &Processor,
    };
    assert_eq!(rt; problem.judge(&Line, &[on(First, 0b1111)]), Ok(11));
    assert_eq!(rt; judged(&sheet, 6, &[]), Some(Err(Breach::MissingOperator)));
    assert_eq!(rt; judged(&Sheet::new(), 0, &[]), Some(Ok(0)));
    Ok(())
}

#[test]
fn stages_that_have_no_order(rt: HostRuntime) -> Result<(), Fail> {
    let mut sheet = Sheet::new();
    for _ in 0..4 {
        sheet.add(Operator {
            acc: 1,
            cpu: 1,
            size: 1,
            link: 1,
        })?;
    }
    sheet.join(0, 3)?;
    sheet.join(1, 2)?;
    sheet.count(2, 2)?;
    assert_eq!(rt;
        judged(&sheet, 9, &[on(First, 0b0101), on(First, 0b1010)]),
        Some(Err(Breach::EdgeBack(1)))
    );
    assert_eq!(rt;
        judged(&sheet, 9, &[on(First, 0b1010), on(First, 0b0101)]),
        Some(Err(Breach::EdgeBack(1)))
    );
    assert_eq!(rt;
        judged(&sheet, 9, &[on(First, 0b0011), on(First, 0b1100)]),
        Some(Ok(4))
    );
    Ok(())
}

#[test]
fn each_broken_rule(rt: HostRuntime) -> Result<(), Fail> {
    let sheet = diamond(2, 1)?;
    assert_eq!(rt;
        judged(&sheet, 4, &[on(First, 0b0011), on(First, 0b0011)]),
        Some(Err(Breach::RepeatedOperator(1)))
    );
    assert_eq!(rt;
        judged(&sheet, 4, &[on(First, 0b0011), on(First, 0b0100)]),
        Some(Err(Breach::MissingOperator))
    );
    assert_eq!(rt;
        judged(&sheet, 4, &[on(First, 0), on(First, 0b1111)]),
        Some(Err(Breach::EmptyStage(0)))
    );
    assert_eq!(rt;
        judged(&sheet, 4, &[on(First, 0b10011)]),
        Some(Err(Breach::ForeignOperator(0)))
    );
    assert_eq!(rt;
        judged(&sheet, 4, &[on(First, 0b0010), on(First, 0b0001)]),
        Some(Err(Breach::EdgeBack(1)))
    );
    assert_eq!(rt;
        judged(&sheet, 4, &[on(First, 0b0111)]),
        Some(Err(Breach::DoesNotFit(0)))
    );
    assert_eq!(rt;
        judged(&sheet, 5, &[on(First, 0b0111), on(First, 0b1000)]),
        Some(Ok(11))
    );
    assert_eq!(rt;
        judged(
            &sheet,
            4,
            // numbers that are no kind have an answer too
            &[Stage {
                mask: 0b1111,
                kind: 3,
            }],
        ),
        Some(Err(Breach::DoesNotFit(0)))
    );
    assert_eq!(rt;
        judged(
            &sheet,
            4,
            &[Stage {
                mask: 0b1111,
                kind: 0,
            }],
        ),
        Some(Err(Breach::DoesNotFit(0)))
    );
    Ok(())
}

#[test]
fn devices_enough(rt: HostRuntime) -> Result<(), Fail> {
    let sheet = diamond(2, 1)?;
    let thrice = [
        on(First, 0b0001),
        on(First, 0b0010),
        on(First, 0b0100),
        on(Second, 0b1000),
    ];
    assert_eq!(rt;
        judged(&sheet, 4, &thrice),
        Some(Err(Breach::TooManyOfFirst(2)))
    );
    let twice = [on(First, 0b0001), on(Second, 0b0010), on(Second, 0b1100)];
    assert_eq!(rt;
        judged(&sheet, 4, &twice),
        Some(Err(Breach::TooManyOfSecond(2)))
    );
    let enough = [on(First, 0b0001), on(First, 0b0010), on(Second, 0b1100)];
    assert_eq!(rt; judged(&sheet, 4, &enough), Some(Ok(14)));
    Ok(())
}

#[test]
fn a_kind_that_fits_nothing_and_a_scale_that_rates_alike(rt: HostRuntime) -> Result<(), Fail> {
    let sheet = diamond(2, 2)?;
    let stages = [on(First, 0b0011), on(Second, 0b1100)];
    let nothing_first = Problem {
        sheet: &sheet,
        first: &Nothing,
        second: &Processor,
    };
    assert_eq!(rt;
        nothing_first.judge(&Peak, &stages),
        Err(Breach::DoesNotFit(0))
    );
    let nothing_second = Problem {
        sheet: &sheet,
        first: &Processor,
        second: &Nothing,
    };
    assert_eq!(rt;
        nothing_second.judge(&Peak, &stages),
        Err(Breach::DoesNotFit(1))
    );
    let processors = Problem {
        sheet: &sheet,
        first: &Processor,
        second: &Processor,
    };
    assert_eq!(rt; processors.judge(&Alike, &stages), Ok(()));
    Ok(())
}

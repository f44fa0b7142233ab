// What the two kinds answer, and how the scales join and compare, at their limits.
use device::{Accelerator, Kind, Load, Processor, UnknownKind, WhichKind};
use refusals::Refusal;
use scale::{Line, Pair, PairRating, Peak, Scale};
use sheet::{Operator, Sheet};
use std::test::Fail;

#[test]
fn numbers_of_the_kinds(rt: HostRuntime) {
    for (code, kind) in [(1, WhichKind::First), (2, WhichKind::Second)] {
        assert_eq!(rt; WhichKind::try_from(code), Ok(kind));
        assert_eq!(rt; u8::from(kind), code);
    }
    for code in [0, 3, u8::MAX] {
        assert_eq!(rt; WhichKind::try_from(code), Err(UnknownKind(code)));
    }
}

#[test]
fn limits_of_an_accelerator(rt: HostRuntime) -> Result<(), Fail> {
    assert_eq!(rt; Accelerator::new(0)?.limit(), 0);
    assert_eq!(rt; Accelerator::new(1_000_000_000)?.limit(), 1_000_000_000);
    for limit in [1_000_000_001, u32::MAX] {
        assert_eq!(rt; Accelerator::new(limit), Err(Refusal::AboveLimit));
    }
    Ok(())
}

#[test]
fn a_size_equal_to_the_limit_fits(rt: HostRuntime) -> Result<(), Fail> {
    let mut sheet = Sheet::new();
    sheet.add(Operator {
        acc: 3,
        cpu: 9,
        size: 4,
        link: 2,
    })?;
    sheet.add(Operator {
        acc: 5,
        cpu: 1,
        size: 4,
        link: 7,
    })?;
    sheet.join(0, 1)?;
    let later = sheet.figures(0b10);
    assert_eq!(rt;
        Accelerator::new(4)?.load(&later),
        Some(Load { ticks: 7, link: 2 })
    );
    assert_eq!(rt; Accelerator::new(3)?.load(&later), None);
    assert_eq!(rt; Processor.load(&later), Some(Load { ticks: 1, link: 0 }));
    let earlier = sheet.figures(0b01);
    assert_eq!(rt;
        Accelerator::new(4)?.load(&earlier),
        Some(Load { ticks: 5, link: 2 })
    );
    Ok(())
}

// The load of one operator on a processor, at most a million ticks.
fn ticks(cpu: u32) -> Result<Load, Refusal> {
    let mut sheet = Sheet::new();
    sheet.add(Operator {
        acc: 0,
        cpu,
        size: 0,
        link: 0,
    })?;
    Processor.load(&sheet.figures(1)).ok_or(Refusal::NoOperator)
}

#[test]
fn scales_join(rt: HostRuntime) -> Result<(), Fail> {
    let five = ticks(5)?;
    assert_eq!(rt; Peak.join(Peak.start(), &five), 5);
    assert_eq!(rt; Peak.join(7, &five), 7);
    assert_eq!(rt; Line.join(Line.start(), &five), 5);
    assert_eq!(rt; Line.join(7, &five), 12);
    assert_eq!(rt; Line.join(u64::MAX - 5, &five), u64::MAX);
    assert_eq!(rt; Line.join(u64::MAX - 4, &five), u64::MAX);
    assert_eq!(rt;
        Pair.join(Pair.start(), &five),
        PairRating { ticks: 5, link: 0 }
    );
    assert_eq!(rt;
        Pair.join(PairRating { ticks: 5, link: 1 }, &five),
        PairRating { ticks: 5, link: 1 }
    );
    assert_eq!(rt;
        Pair.join(PairRating { ticks: 4, link: 9 }, &five),
        PairRating { ticks: 5, link: 0 }
    );
    Ok(())
}

#[test]
fn pairs_compare_by_ticks_first(rt: HostRuntime) {
    let low = PairRating { ticks: 1, link: 9 };
    let high = PairRating { ticks: 2, link: 0 };
    assert!(rt; Pair.is_at_most(low, high));
    assert!(rt; !Pair.is_at_most(high, low));
    assert!(rt; Pair.is_at_most(low, low));
    assert!(rt; Pair.is_at_most(high, PairRating { ticks: 2, link: 1 }));
    assert!(rt; !Pair.is_at_most(PairRating { ticks: 2, link: 1 }, high));
}

// The calls that change a sheet, at their limits and in the order of their checks.
use super::planners::{diamond, empty, operator};
use super::samples::DIAMOND;
use refusals::Refusal;
use std::test::Fail;

#[test]
fn operator_65_is_refused_before_its_figures(rt: HostRuntime) -> Result<(), Fail> {
    let mut planner = empty()?;
    for v in 0..64 {
        assert_eq!(rt; planner.add(operator(0, 0, 0, 0)), Ok(v));
    }
    for acc in [0, 1_000_001] {
        assert_eq!(rt;
            planner.add(operator(acc, 0, 0, 0)),
            Err(Refusal::SheetFull)
        );
    }
    assert_eq!(rt; planner.write(&mut [0; 22 + 16 * 64]), Ok(22 + 16 * 64));
    Ok(())
}

#[test]
fn figures_to_a_million(rt: HostRuntime) -> Result<(), Fail> {
    let mut planner = empty()?;
    let most = 1_000_000;
    for (acc, cpu, size, link) in [
        (most + 1, 0, 0, 0),
        (0, most + 1, 0, 0),
        (0, 0, most + 1, 0),
        (0, 0, 0, most + 1),
    ] {
        let figures = operator(acc, cpu, size, link);
        assert_eq!(rt; planner.add(figures), Err(Refusal::AboveLimit));
    }
    for v in 0..2 {
        let figures = operator(most, most, most, most);
        assert_eq!(rt; planner.add(figures), Ok(v));
    }
    Ok(())
}

#[test]
fn joins_in_the_order_of_their_checks(rt: HostRuntime) -> Result<(), Fail> {
    let mut planner = diamond(2, 0)?;
    for (from, to, answer) in [
        (0, 4, Err(Refusal::NoOperator)),
        (4, 0, Err(Refusal::NoOperator)),
        (4, 4, Err(Refusal::NoOperator)),
        (usize::MAX, 0, Err(Refusal::NoOperator)),
        (3, 3, Err(Refusal::NotUpward)),
        (1, 0, Err(Refusal::NotUpward)),
        (0, 1, Err(Refusal::EdgeExists)),
        (1, 2, Ok(())),
        (1, 2, Err(Refusal::EdgeExists)),
        (2, 1, Err(Refusal::NotUpward)),
    ] {
        assert_eq!(rt; planner.join(from, to), answer, "{from} to {to}");
    }
    assert_eq!(rt; planner.write(&mut [0; 96]), Ok(96));
    Ok(())
}

#[test]
fn retimes_in_the_order_of_their_checks(rt: HostRuntime) -> Result<(), Fail> {
    let mut planner = diamond(2, 0)?;
    let most = 1_000_000;
    for (v, acc, answer) in [
        (4, most + 1, Err(Refusal::NoOperator)),
        (4, most, Err(Refusal::NoOperator)),
        (usize::MAX, 0, Err(Refusal::NoOperator)),
        (3, most + 1, Err(Refusal::AboveLimit)),
        (3, most, Ok(())),
        (0, most, Ok(())),
    ] {
        let figures = operator(acc, most, most, most);
        assert_eq!(rt; planner.retime(v, &figures), answer, "{v}: {acc}");
    }
    Ok(())
}

#[test]
fn counts_to_eight(rt: HostRuntime) -> Result<(), Fail> {
    let mut planner = empty()?;
    for (k, l, answer) in [
        (9, 0, Err(Refusal::CountAboveLimit)),
        (0, 9, Err(Refusal::CountAboveLimit)),
        (8, 8, Ok(())),
        (9, 8, Err(Refusal::CountAboveLimit)),
        (8, 255, Err(Refusal::CountAboveLimit)),
    ] {
        assert_eq!(rt; planner.count(k, l), answer, "{k} and {l}");
    }
    let mut file = [0; 22];
    planner.write(&mut file)?;
    assert_eq!(rt; (file[20], file[21]), (8, 8));
    Ok(())
}

#[test]
fn what_was_built_is_written(rt: HostRuntime) -> Result<(), Fail> {
    let mut file = [0; 94];
    assert_eq!(rt; diamond(2, 0)?.write(&mut file), Ok(94));
    assert_eq!(rt; file, DIAMOND);
    Ok(())
}

// Building and changing a sheet at its limits, and the figures of stages.
use refusals::Refusal;
use sheet::{Counts, Operator, Sheet, StageFigures};
use std::test::Fail;

fn operator(acc: u32, cpu: u32, size: u32, link: u32) -> Operator {
    Operator {
        acc,
        cpu,
        size,
        link,
    }
}

fn blank() -> Operator {
    operator(0, 0, 0, 0)
}

// The diamond: edges 0 to 1, 0 to 2, 1 to 3 and 2 to 3.
// Each crate of tests makes its sheets itself: a crate for a few lines would need contracts and edits of its own, and be longer than they are.
fn diamond() -> Result<Sheet, Refusal> {
    let mut sheet = Sheet::new();
    for (acc, cpu, size) in [(2, 6, 1), (4, 8, 2), (3, 9, 2), (2, 5, 1)] {
        sheet.add(operator(acc, cpu, size, 1))?;
    }
    for (from, to) in [(0, 1), (0, 2), (1, 3), (2, 3)] {
        sheet.join(from, to)?;
    }
    Ok(sheet)
}

#[test]
fn operator_65_is_refused_before_its_figures(rt: HostRuntime) {
    let mut sheet = Sheet::new();
    for v in 0..64 {
        assert_eq!(rt; sheet.add(blank()), Ok(v));
    }
    assert_eq!(rt; sheet.add(blank()), Err(Refusal::SheetFull));
    assert_eq!(rt;
        sheet.add(operator(1_000_001, 0, 0, 0)),
        Err(Refusal::SheetFull)
    );
    assert_eq!(rt; sheet.operators(), 64);
}

#[test]
fn figures_to_a_million(rt: HostRuntime) {
    let mut sheet = Sheet::new();
    assert_eq!(rt;
        sheet.add(operator(1_000_000, 1_000_000, 1_000_000, 1_000_000)),
        Ok(0)
    );
    assert_eq!(rt;
        sheet.add(operator(1_000_001, 0, 0, 0)),
        Err(Refusal::AboveLimit)
    );
    assert_eq!(rt;
        sheet.add(operator(0, 1_000_001, 0, 0)),
        Err(Refusal::AboveLimit)
    );
    assert_eq!(rt;
        sheet.add(operator(0, 0, 1_000_001, 0)),
        Err(Refusal::AboveLimit)
    );
    assert_eq!(rt;
        sheet.add(operator(0, 0, 0, 1_000_001)),
        Err(Refusal::AboveLimit)
    );
    assert_eq!(rt; sheet.operators(), 1);
}

#[test]
fn joins_in_the_order_of_their_checks(rt: HostRuntime) -> Result<(), Fail> {
    let mut sheet = diamond()?;
    assert_eq!(rt; sheet.join(0, 4), Err(Refusal::NoOperator));
    assert_eq!(rt; sheet.join(4, 0), Err(Refusal::NoOperator));
    assert_eq!(rt; sheet.join(9, 9), Err(Refusal::NoOperator));
    assert_eq!(rt; sheet.join(3, 3), Err(Refusal::NotUpward));
    assert_eq!(rt; sheet.join(1, 0), Err(Refusal::NotUpward));
    assert_eq!(rt; sheet.join(0, 1), Err(Refusal::EdgeExists));
    assert_eq!(rt; sheet.edges(), 4);
    assert_eq!(rt; sheet.join(0, 3), Ok(()));
    assert_eq!(rt; sheet.edges(), 5);
    assert_eq!(rt; sheet.successors(0), 0b1110);
    assert_eq!(rt; sheet.predecessors(3), 0b0111);
    Ok(())
}

#[test]
fn retimes_one_row(rt: HostRuntime) -> Result<(), Fail> {
    let mut sheet = diamond()?;
    assert_eq!(rt;
        sheet.retime(4, &operator(1_000_001, 0, 0, 0)),
        Err(Refusal::NoOperator)
    );
    assert_eq!(rt;
        sheet.retime(3, &operator(0, 0, 1_000_001, 0)),
        Err(Refusal::AboveLimit)
    );
    assert_eq!(rt; sheet.row(3), Some(&operator(2, 5, 1, 1)));
    assert_eq!(rt; sheet.retime(3, &operator(7, 1_000_000, 9, 10)), Ok(()));
    assert_eq!(rt; sheet.row(3), Some(&operator(7, 1_000_000, 9, 10)));
    assert_eq!(rt; sheet.row(2), Some(&operator(3, 9, 2, 1)));
    assert_eq!(rt; sheet.row(4), None);
    Ok(())
}

#[test]
fn counts_to_eight(rt: HostRuntime) -> Result<(), Fail> {
    let mut sheet = diamond()?;
    assert_eq!(rt; sheet.count(8, 8), Ok(()));
    assert_eq!(rt; sheet.count(9, 0), Err(Refusal::CountAboveLimit));
    assert_eq!(rt; sheet.count(0, 9), Err(Refusal::CountAboveLimit));
    assert_eq!(rt; sheet.counts(), Counts { k: 8, l: 8 });
    Ok(())
}

// The five sums without the mask, to lay beside five numbers.
fn sums(f: StageFigures) -> [u32; 5] {
    [f.acc, f.cpu, f.size, f.incoming, f.outgoing]
}

#[test]
fn stages_of_the_diamond(rt: HostRuntime) -> Result<(), Fail> {
    let sheet = diamond()?;
    // two edges leave operator 0, and its link is charged once
    assert_eq!(rt; sums(sheet.figures(0b0001)), [2, 6, 1, 0, 1]);
    assert_eq!(rt; sums(sheet.figures(0b0011)), [6, 14, 3, 0, 2]);
    assert_eq!(rt; sums(sheet.figures(0b1100)), [5, 14, 3, 2, 0]);
    assert_eq!(rt; sums(sheet.figures(0b1000)), [2, 5, 1, 2, 0]);
    assert_eq!(rt; sums(sheet.figures(0b1111)), [11, 28, 6, 0, 0]);
    assert_eq!(rt; sums(sheet.figures(0)), [0, 0, 0, 0, 0]);
    // bits of no operator add nothing, and stay in the mask
    assert_eq!(rt; sums(sheet.figures(0xf0)), [0, 0, 0, 0, 0]);
    assert_eq!(rt; sums(sheet.figures(u64::MAX)), [11, 28, 6, 0, 0]);
    assert_eq!(rt; sheet.figures(u64::MAX).mask, u64::MAX);
    Ok(())
}

#[test]
fn the_largest_sums(rt: HostRuntime) -> Result<(), Fail> {
    let mut sheet = Sheet::new();
    for _ in 0..64 {
        sheet.add(operator(1_000_000, 1_000_000, 1_000_000, 1_000_000))?;
    }
    assert_eq!(rt;
        sums(sheet.figures(u64::MAX)),
        [64_000_000, 64_000_000, 64_000_000, 0, 0]
    );
    Ok(())
}

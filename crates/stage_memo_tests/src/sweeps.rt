// Every set of the diamond, in orders that meet and miss what is known.
use refusals::Refusal;
use sheet::{Operator, Sheet};
use stage_memo::StageMemo;
use std::process::Abort;
use std::test::Fail;

// The diamond: edges 0 to 1, 0 to 2, 1 to 3 and 2 to 3; no two figures are alike.
// Each crate of tests makes its sheets itself: a crate for a few lines would need contracts and edits of its own, and be longer than they are.
fn diamond() -> Result<Sheet, Refusal> {
    let mut sheet = Sheet::new();
    for v in 0..4u32 {
        sheet.add(Operator {
            acc: 1 << v,
            cpu: 16 << v,
            size: 256 << v,
            link: 4096 << v,
        })?;
    }
    for (from, to) in [(0, 1), (0, 2), (1, 3), (2, 3)] {
        sheet.join(from, to)?;
    }
    Ok(sheet)
}

// Asks for one set, and compares with the sheet.
fn check_stage(rt: &impl Abort, sheet: &Sheet, memo: &mut StageMemo<'_>, mask: u64) {
    let known = memo.figures(mask);
    assert_eq!(rt; known.mask, mask);
    assert_eq!(rt; known, sheet.figures(mask));
}

#[test]
fn ascending_and_descending(rt: HostRuntime) -> Result<(), Fail> {
    let sheet = diamond()?;
    let mut memo = StageMemo::new(&sheet);
    for mask in (0..16).chain((0..16).rev()) {
        check_stage(&rt, &sheet, &mut memo, mask);
    }
    Ok(())
}

#[test]
fn bits_without_operator_add_nothing(rt: HostRuntime) -> Result<(), Fail> {
    let sheet = diamond()?;
    let mut memo = StageMemo::new(&sheet);
    for mask in [u64::MAX, 1 << 63 | 6, 6] {
        check_stage(&rt, &sheet, &mut memo, mask);
    }
    Ok(())
}

#[test]
fn the_lower_side_of_the_diamond(rt: HostRuntime) -> Result<(), Fail> {
    let sheet = diamond()?;
    let mut memo = StageMemo::new(&sheet);
    let side = memo.figures(5);
    assert_eq!(rt; [side.acc, side.cpu, side.size], [5, 80, 1280]);
    assert_eq!(rt; [side.incoming, side.outgoing], [0, 4096 + 16384]);
    Ok(())
}

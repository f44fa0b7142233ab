// The first masks of a table, and what is beyond them.
use ideals::list;
use refusals::Refusal;
use sheet::{Operator, Sheet};
use std::test::Fail;

// So many operators without edges.
fn loose(operators: usize) -> Result<Sheet, Refusal> {
    let mut sheet = Sheet::new();
    for _ in 0..operators {
        sheet.add(Operator {
            acc: 1,
            cpu: 1,
            size: 1,
            link: 1,
        })?;
    }
    Ok(sheet)
}

// The diamond: edges 0 to 1, 0 to 2, 1 to 3 and 2 to 3.
// Each crate of tests makes its sheets itself: a crate for a few lines would need contracts and edits of its own, and be longer than they are.
fn diamond() -> Result<Sheet, Refusal> {
    let mut sheet = loose(4)?;
    for (from, to) in [(0, 1), (0, 2), (1, 3), (2, 3)] {
        sheet.join(from, to)?;
    }
    Ok(sheet)
}

#[test]
fn a_table_for_just_the_ideals(rt: HostRuntime) -> Result<(), Fail> {
    let mut table = [9; 6];
    assert_eq!(rt; list(&diamond()?, &mut table), Some(6));
    assert_eq!(rt; table, [0, 1, 3, 5, 7, 15]);
    Ok(())
}

#[test]
fn one_place_more(rt: HostRuntime) -> Result<(), Fail> {
    let mut table = [9; 7];
    assert_eq!(rt; list(&diamond()?, &mut table), Some(6));
    assert_eq!(rt; table, [0, 1, 3, 5, 7, 15, 9]);
    Ok(())
}

#[test]
fn one_place_less(rt: HostRuntime) -> Result<(), Fail> {
    let mut table = [9; 5];
    assert_eq!(rt; list(&diamond()?, &mut table), None);
    assert_eq!(rt; table, [0, 1, 3, 5, 7]);
    Ok(())
}

#[test]
fn no_place_at_all(rt: HostRuntime) {
    let mut table = [9; 1];
    assert_eq!(rt; list(&Sheet::new(), &mut table[..0]), None);
    assert_eq!(rt; table, [9]);
    assert_eq!(rt; list(&Sheet::new(), &mut table), Some(1));
    assert_eq!(rt; table, [0]);
}

#[test]
fn twelve_loose_operators_fill_the_longest_list(rt: HostRuntime) -> Result<(), Fail> {
    let mut table = [9; 4097];
    assert_eq!(rt; list(&loose(12)?, &mut table), Some(4096));
    assert_eq!(rt; table[4095], 4095);
    assert_eq!(rt; table[4096], 9);
    Ok(())
}

#[test]
fn twelve_do_not_fit_one_place_less(rt: HostRuntime) -> Result<(), Fail> {
    let mut table = [9; 4095];
    assert_eq!(rt; list(&loose(12)?, &mut table), None);
    assert_eq!(rt; table[4094], 4094);
    Ok(())
}

#[test]
fn thirteen_are_too_many_for_any_table(rt: HostRuntime) -> Result<(), Fail> {
    let mut table = [9; 4097];
    assert_eq!(rt; list(&loose(13)?, &mut table), None);
    assert_eq!(rt; table[4095], 4095);
    assert_eq!(rt; table[4096], 9);
    Ok(())
}

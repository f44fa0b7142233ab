// Loading a file: its refusals with their values, what a granted load replaces, and what a refused one keeps.
use super::planners::{diamond, empty, plan, planned};
use super::samples::{DIAMOND, EMPTY, damaged};
use refusals::{Reason, Refusal, Section};
use std::test::Fail;

fn body(section: Section, entry: usize, reason: Reason) -> Refusal {
    Refusal::BodyEntry {
        section: section.number(),
        entry,
        reason,
    }
}

#[test]
fn a_damaged_byte_is_told_and_changes_nothing(rt: HostRuntime) -> Result<(), Fail> {
    let mut planner = planned()?;
    for (at, byte, refusal) in [
        (0, 0, Refusal::NotASheetFile),
        (4, 2, Refusal::NotASheetFile),
        (5, 2, Refusal::ContentsEntry(0)),
        (13, 7, Refusal::ContentsEntry(1)),
        (18, 0, Refusal::ContentsEntry(2)),
        (39, 1, body(Section::Operators, 1, Reason::AboveLimit)),
        (85, 4, body(Section::Edges, 0, Reason::NoOperator)),
        (90, 3, body(Section::Edges, 3, Reason::NotUpward)),
        (87, 1, body(Section::Edges, 1, Reason::NotAscending)),
        (93, 9, body(Section::Counts, 0, Reason::CountAboveLimit)),
    ] {
        assert_eq!(rt; planner.load(&damaged(at, byte)), Err(refusal));
    }
    assert_eq!(rt; planner.rating(), Ok(8));
    let mut file = [0; 94];
    planner.write(&mut file)?;
    assert_eq!(rt; file, DIAMOND);
    Ok(())
}

#[test]
fn files_that_are_too_short(rt: HostRuntime) -> Result<(), Fail> {
    let mut planner = empty()?;
    for (length, refusal) in [
        (0, Refusal::NotASheetFile),
        (19, Refusal::NotASheetFile),
        (20, Refusal::ContentsEntry(0)),
        (93, Refusal::ContentsEntry(2)),
    ] {
        assert_eq!(rt; planner.load(&DIAMOND[..length]), Err(refusal));
    }
    assert_eq!(rt; planner.load(&DIAMOND), Ok(()));
    Ok(())
}

#[test]
fn a_granted_load_replaces_all(rt: HostRuntime) -> Result<(), Fail> {
    let mut planner = diamond(8, 8)?;
    planner.join(1, 2)?;
    assert_eq!(rt; planner.load(&DIAMOND), Ok(()));
    let mut file = [0; 94];
    assert_eq!(rt; planner.write(&mut file), Ok(94));
    assert_eq!(rt; file, DIAMOND);
    assert_eq!(rt; plan(&mut planner).map(|plan| plan.rating), Ok(8));
    assert_eq!(rt; planner.load(&EMPTY), Ok(()));
    assert_eq!(rt; planner.rating(), Err(Refusal::NoSplit));
    assert_eq!(rt; planner.write(&mut file), Ok(22));
    assert_eq!(rt; &file[..22], EMPTY.as_slice());
    Ok(())
}

#[test]
fn a_cleared_planner_is_as_new(rt: HostRuntime) -> Result<(), Fail> {
    let mut planner = planned()?;
    planner.clear();
    assert_eq!(rt; planner.rating(), Err(Refusal::NoSplit));
    let mut file = [0; 22];
    assert_eq!(rt; planner.write(&mut file), Ok(22));
    assert_eq!(rt; file, EMPTY);
    // its accelerator stays, with the limit 4
    planner.load(&DIAMOND)?;
    assert_eq!(rt; plan(&mut planner).map(|plan| plan.rating), Ok(8));
    Ok(())
}

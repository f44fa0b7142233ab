// What becomes of the split that stands: each granted change takes it away, also one that changes nothing, and each refused one leaves it.
use super::planners::{OnPeak, empty, operator, plan, planned};
use super::samples::{DIAMOND, EMPTY, damaged};
use planner::Call;
use planner::Call::{Add, Clear, Count, Join, Load, Retime};
use refusals::Refusal;
use std::test::Fail;

// Makes a call that needs no tables, and answers whether it was granted.
fn is_granted(planner: &mut OnPeak, call: &Call<'_>) -> bool {
    planner
        .make(call, &mut [0; 0], &mut [0; 0], &mut [])
        .is_ok()
}

#[test]
fn a_granted_change_takes_it_away(rt: HostRuntime) -> Result<(), Fail> {
    for call in [
        Add(operator(0, 0, 0, 0)),
        Join { from: 0, to: 3 },
        Retime {
            operator: 3,
            figures: operator(2, 5, 1, 2),
        },
        Count { k: 2, l: 1 },
        Load(&EMPTY),
        Clear,
    ] {
        let mut planner = planned()?;
        assert!(rt; is_granted(&mut planner, &call));
        assert_eq!(rt; planner.rating(), Err(Refusal::NoSplit));
    }
    Ok(())
}

#[test]
fn a_granted_change_that_changes_nothing_takes_it_away(rt: HostRuntime) -> Result<(), Fail> {
    for call in [
        Retime {
            operator: 3,
            figures: operator(2, 5, 1, 1),
        },
        Count { k: 2, l: 0 },
        Load(&DIAMOND),
    ] {
        let mut planner = planned()?;
        assert!(rt; is_granted(&mut planner, &call));
        assert_eq!(rt; planner.rating(), Err(Refusal::NoSplit));
    }
    for call in [Count { k: 0, l: 0 }, Load(&EMPTY), Clear] {
        let mut planner = empty()?;
        plan(&mut planner)?;
        assert!(rt; is_granted(&mut planner, &call));
        assert_eq!(rt; planner.rating(), Err(Refusal::NoSplit));
    }
    Ok(())
}

#[test]
fn a_refused_change_leaves_it(rt: HostRuntime) -> Result<(), Fail> {
    let mut planner = planned()?;
    for call in [
        Add(operator(1_000_001, 0, 0, 0)),
        Join { from: 0, to: 4 },
        Join { from: 1, to: 0 },
        Join { from: 0, to: 1 },
        Retime {
            operator: 4,
            figures: operator(0, 0, 0, 0),
        },
        Retime {
            operator: 0,
            figures: operator(0, 0, 0, 1_000_001),
        },
        Count { k: 9, l: 0 },
        Load(&damaged(0, 0)),
        Load(&damaged(5, 0)),
        Load(&damaged(93, 9)),
    ] {
        assert!(rt; !is_granted(&mut planner, &call));
        assert_eq!(rt; planner.rating(), Ok(8));
    }
    let mut page = [0; 28];
    assert_eq!(rt; planner.page(&mut page), Ok(28));
    assert_eq!(rt; page, *b"stages 2 pace 8\nA 0 1\nA 2 3\n");
    assert_eq!(rt; planner.write(&mut [0; 94]), Ok(94));
    Ok(())
}

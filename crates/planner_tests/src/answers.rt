// The calls that only read: without a split, on the diamond's, and at the limits of what they are handed.
use super::planners::{diamond, planned};
use super::samples::DIAMOND;
use refusals::Refusal;
use std::test::Fail;

const PAGE: [u8; 28] = *b"stages 2 pace 8\nA 0 1\nA 2 3\n";

// No split comes before anything else that could be wrong.
#[test]
fn no_split_is_told_first(rt: HostRuntime) -> Result<(), Fail> {
    let planner = diamond(2, 0)?;
    assert_eq!(rt; planner.rating(), Err(Refusal::NoSplit));
    assert_eq!(rt; planner.page(&mut [0; 0]), Err(Refusal::NoSplit));
    for number in [0, 9, usize::MAX] {
        assert_eq!(rt; planner.stage(number), Err(Refusal::NoSplit));
        assert_eq!(rt; planner.place(number), Err(Refusal::NoSplit));
    }
    for pick in [0, 1_000_000_001] {
        assert_eq!(rt; planner.margin(pick), Err(Refusal::NoSplit));
    }
    Ok(())
}

#[test]
fn stages_and_places(rt: HostRuntime) -> Result<(), Fail> {
    let planner = planned()?;
    for (i, answer) in [
        (0, Ok((1, 0b0011, 2))),
        (1, Ok((1, 0b1100, 2))),
        (2, Err(Refusal::NoStage)),
        (usize::MAX, Err(Refusal::NoStage)),
    ] {
        assert_eq!(rt; planner.stage(i), answer, "stage {i}");
    }
    for (v, answer) in [
        (0, Ok(0)),
        (1, Ok(0)),
        (2, Ok(1)),
        (3, Ok(1)),
        (4, Err(Refusal::NoOperator)),
        (64, Err(Refusal::NoOperator)),
        (usize::MAX, Err(Refusal::NoOperator)),
    ] {
        assert_eq!(rt; planner.place(v), answer, "operator {v}");
    }
    Ok(())
}

#[test]
fn margins(rt: HostRuntime) -> Result<(), Fail> {
    let planner = planned()?;
    for (pick, answer) in [
        (0, Ok(-8)),
        (8, Ok(0)),
        (10, Ok(2)),
        (1_000_000_000, Ok(999_999_992)),
        (1_000_000_001, Err(Refusal::AboveLimit)),
        (u32::MAX, Err(Refusal::AboveLimit)),
    ] {
        assert_eq!(rt; planner.margin(pick), answer, "{pick}");
    }
    Ok(())
}

#[test]
fn a_page_into_buffers_around_its_length(rt: HostRuntime) -> Result<(), Fail> {
    let planner = planned()?;
    let mut buffer = [b'.'; 29];
    assert_eq!(rt;
        planner.page(&mut buffer[..27]),
        Err(Refusal::BufferTooShort)
    );
    assert_eq!(rt; buffer, [b'.'; 29]);
    let mut exact = [0; 28];
    assert_eq!(rt; planner.page(&mut exact), Ok(28));
    assert_eq!(rt; exact, PAGE);
    assert_eq!(rt; planner.page(&mut buffer), Ok(28));
    assert_eq!(rt; &buffer[..28], PAGE.as_slice());
    assert_eq!(rt; buffer[28], b'.');
    Ok(())
}

#[test]
fn a_file_into_buffers_around_its_length(rt: HostRuntime) -> Result<(), Fail> {
    let mut planner = planned()?;
    let mut buffer = [9; 95];
    assert_eq!(rt;
        planner.write(&mut buffer[..93]),
        Err(Refusal::BufferTooShort)
    );
    assert_eq!(rt; buffer, [9; 95]);
    assert_eq!(rt; planner.write(&mut buffer), Ok(94));
    assert_eq!(rt; &buffer[..94], DIAMOND.as_slice());
    assert_eq!(rt; buffer[94], 9);
    // what is written is read back
    assert_eq!(rt; planner.load(&buffer[..94]), Ok(()));
    let mut exact = [0; 94];
    assert_eq!(rt; planner.write(&mut exact), Ok(94));
    assert_eq!(rt; exact, DIAMOND);
    Ok(())
}

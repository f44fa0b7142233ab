// Pages byte for byte, in buffers of their length and of one byte less and more.
use super::{pace, write_page};
use best_split::find;
use cells::Choice;
use device::{Accelerator, Processor};
use refusals::Refusal;
use scale::Peak;
use sheet::{Operator, Sheet};
use split::{Problem, Stage};
use std::test::Fail;

// The diamond: edges 0 to 1, 0 to 2, 1 to 3 and 2 to 3.
fn diamond(k: u8, l: u8) -> Result<Sheet, Refusal> {
    let mut sheet = Sheet::new();
    for (acc, cpu, size) in [(2, 6, 1), (4, 8, 2), (3, 9, 2), (2, 5, 1)] {
        sheet.add(Operator {
            acc,
            cpu,
            size,
            link: 1,
        })?;
    }
    for (from, to) in [(0, 1), (0, 2), (1, 3), (2, 3)] {
        sheet.join(from, to)?;
    }
    sheet.count(k, l)?;
    Ok(sheet)
}

// The page of a least split on peak, for accelerators with this limit and processors.
fn write(sheet: &Sheet, limit: u32, buffer: &mut [u8]) -> Result<usize, Refusal> {
    let problem = Problem {
        sheet,
        first: &Accelerator::new(limit)?,
        second: &Processor,
    };
    let found = find(
        &problem,
        &Peak,
        &mut [0; 6],
        &mut [0; 24],
        &mut [Choice::NONE; 24],
    )?;
    write_page(&problem, &found.split, buffer)
}

#[test]
fn one_byte_more(rt: HostRuntime) -> Result<(), Fail> {
    let mut buffer = [b'.'; 29];
    assert_eq!(rt; write(&diamond(2, 0)?, 4, &mut buffer), Ok(28));
    assert_eq!(rt; buffer, *b"stages 2 pace 8\nA 0 1\nA 2 3\n.");
    Ok(())
}

#[test]
fn the_length_of_the_page(rt: HostRuntime) -> Result<(), Fail> {
    let mut buffer = [b'.'; 28];
    assert_eq!(rt; write(&diamond(2, 0)?, 4, &mut buffer), Ok(28));
    assert_eq!(rt; buffer, *b"stages 2 pace 8\nA 0 1\nA 2 3\n");
    Ok(())
}

#[test]
fn one_byte_less(rt: HostRuntime) -> Result<(), Fail> {
    let mut buffer = [b'.'; 27];
    assert_eq!(rt;
        write(&diamond(2, 0)?, 4, &mut buffer),
        Err(Refusal::BufferTooShort)
    );
    assert_eq!(rt; buffer, [b'.'; 27]);
    Ok(())
}

#[test]
fn both_kinds(rt: HostRuntime) -> Result<(), Fail> {
    let mut buffer = [b'.'; 29];
    assert_eq!(rt; write(&diamond(1, 1)?, 3, &mut buffer), Ok(29));
    assert_eq!(rt; buffer, *b"stages 2 pace 13\nA 0 2\nB 1 3\n");
    Ok(())
}

#[test]
fn no_stage(rt: HostRuntime) -> Result<(), Fail> {
    let mut buffer = [b'.'; 16];
    assert_eq!(rt; write(&Sheet::new(), 4, &mut buffer), Ok(16));
    assert_eq!(rt; buffer, *b"stages 0 pace 0\n");
    Ok(())
}

// A stage that is too large for its kind, or is of none, has no ticks.
#[test]
fn a_pace_of_any_stages(rt: HostRuntime) -> Result<(), Fail> {
    let problem = Problem {
        sheet: &diamond(2, 0)?,
        first: &Accelerator::new(4)?,
        second: &Processor,
    };
    let on = |kind: u8, mask: u64| Stage { mask, kind };
    assert_eq!(rt; pace(&problem, &[on(1, 0b1111), on(3, 0b1111)]), 0);
    assert_eq!(rt;
        pace(&problem, &[on(1, 0b0001), on(2, 0b0110), on(1, 0b1000)]),
        17
    );
    Ok(())
}

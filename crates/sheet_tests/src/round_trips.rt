// What is written is read back as the same sheet, for sheets of all sizes.
use refusals::Refusal;
use sheet::{Operator, Sheet};
use sheet_file::{file_length, load, write};
use std::test::Fail;

const ROOM: usize = 5100;

// So many operators, with figures that tell them apart, each joined to those of a pattern of higher ones.
fn patterned(operators: usize, pattern: u64) -> Result<Sheet, Refusal> {
    let mut sheet = Sheet::new();
    for v in 0..operators {
        let figure = (v % 1000) as u32;
        sheet.add(Operator {
            acc: figure,
            cpu: 1_000_000 - figure,
            size: 256 * figure,
            link: 65_537,
        })?;
    }
    for u in 0..operators {
        for v in u + 1..operators {
            if pattern.rotate_left((u & 63) as u32) >> (v & 63) & 1 == 1 {
                sheet.join(u, v)?;
            }
        }
    }
    sheet.count((operators % 9) as u8, (pattern % 9) as u8)?;
    Ok(sheet)
}

// By their operators and counts, since sheets have no equality: places without an operator say nothing.
fn is_same(a: &Sheet, b: &Sheet) -> bool {
    a.nodes() == b.nodes() && a.counts() == b.counts()
}

// Writes the sheet into a larger buffer and reads it back.
fn comes_back(sheet: &Sheet) -> Result<bool, Refusal> {
    let mut buffer = [0xaa; ROOM];
    let length = write(sheet, &mut buffer)?;
    if length != file_length(sheet) || length >= ROOM || buffer[length] != 0xaa {
        return Ok(false);
    }
    Ok(is_same(&load(&buffer[0..length])?, sheet))
}

#[test]
fn all_sizes_and_some_patterns(rt: HostRuntime) -> Result<(), Fail> {
    for operators in 0..65 {
        assert!(rt; comes_back(&patterned(operators, 0)?)?);
        assert!(rt; comes_back(&patterned(operators, 0x9249_2492_4924_9249)?)?);
        assert!(rt; comes_back(&patterned(operators, u64::MAX)?)?);
    }
    Ok(())
}

// Whether a buffer one byte short of the file is refused and kept.
fn is_kept(sheet: &Sheet) -> bool {
    let mut buffer = [0xaa; ROOM];
    let length = file_length(sheet);
    if length == 0 || length > ROOM {
        return false;
    }
    let short = &mut buffer[0..length - 1];
    if write(sheet, short) != Err(Refusal::BufferTooShort) {
        return false;
    }
    buffer.iter().all(|byte| *byte == 0xaa)
}

#[test]
fn a_byte_too_few_is_refused(rt: HostRuntime) -> Result<(), Fail> {
    for operators in 0..65 {
        assert!(rt; is_kept(&patterned(operators, 0x9249_2492_4924_9249)?));
    }
    Ok(())
}

#[test]
fn the_exact_length_suffices(rt: HostRuntime) -> Result<(), Fail> {
    let sheet = patterned(0, 0)?;
    let mut buffer = [0xaa; 22];
    assert_eq!(rt; write(&sheet, &mut buffer), Ok(22));
    assert_eq!(rt; buffer, super::samples::EMPTY);
    Ok(())
}

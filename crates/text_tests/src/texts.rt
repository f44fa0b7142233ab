// The text of a sheet, and that reading it gives the sheet.
use refusals::Refusal;
use sheet::{Operator, Sheet};
use sheet_text::{read, text};
use std::alloc::Global;
use std::test::Fail;

#[test]
fn the_text_of_a_sheet(rt: HostRuntime) -> Result<(), Fail> {
    let given =
        b"count 1 2 # first\n\nop 7 0 1000000 10\r\nop 3 4 5 6\nop 1 1 1 1\nedge 1 2\nedge 0 2\nedge 00 1";
    let sheet = read(given)?;
    let told = text(rt.alloc(), &sheet)?;
    let due =
        "op 7 0 1000000 10\nop 3 4 5 6\nop 1 1 1 1\nedge 0 1\nedge 0 2\nedge 1 2\ncount 1 2\n";
    assert_eq!(rt; told.as_str(), due);
    Ok(())
}

// So many operators, with figures that tell them apart, each joined to those of a pattern of higher ones.
fn patterned(operators: usize, pattern: u64) -> Result<Sheet, Refusal> {
    let mut sheet = Sheet::new();
    for v in 0..operators {
        let figure = (v % 1000) as u32;
        sheet.add(Operator {
            acc: figure,
            cpu: 1_000_000 - figure,
            size: 256 * figure,
            link: 65_537,
        })?;
    }
    for u in 0..operators {
        for v in u + 1..operators {
            if pattern.rotate_left((u & 63) as u32) >> (v & 63) & 1 == 1 {
                sheet.join(u, v)?;
            }
        }
    }
    sheet.count((operators % 9) as u8, (pattern % 9) as u8)?;
    Ok(sheet)
}

// Whether the text of a sheet says it.
fn comes_back(heap: Global, sheet: &Sheet) -> Result<bool, Fail> {
    let told = text(heap, sheet)?;
    let said = read(told.as_str().as_bytes())?;
    Ok(said.nodes() == sheet.nodes() && said.counts() == sheet.counts())
}

#[test]
fn texts_of_all_sizes(rt: HostRuntime) -> Result<(), Fail> {
    for operators in 0..65 {
        assert!(rt; comes_back(rt.alloc(), &patterned(operators, 0x9249_2492_4924_9249)?)?);
    }
    assert!(rt; comes_back(rt.alloc(), &patterned(64, u64::MAX)?)?);
    Ok(())
}

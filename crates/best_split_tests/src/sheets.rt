// Sheets that several tests are about. Each crate of tests makes its sheets itself: a crate for a few lines would need contracts and edits of its own, and be longer than they are.
use refusals::Refusal;
use sheet::{Operator, Sheet};

// The diamond: edges 0 to 1, 0 to 2, 1 to 3 and 2 to 3. It has 6 ideals.
pub(crate) fn diamond(k: u8, l: u8) -> Result<Sheet, Refusal> {
    let mut sheet = Sheet::new();
    for (acc, cpu, size) in [(2, 6, 1), (4, 8, 2), (3, 9, 2), (2, 5, 1)] {
        sheet.add(Operator {
            acc,
            cpu,
            size,
            link: 1,
        })?;
    }
    for (from, to) in [(0, 1), (0, 2), (1, 3), (2, 3)] {
        sheet.join(from, to)?;
    }
    sheet.count(k, l)?;
    Ok(sheet)
}

// One operator alone.
pub(crate) fn single(k: u8, l: u8) -> Result<Sheet, Refusal> {
    let mut sheet = Sheet::new();
    sheet.add(Operator {
        acc: 3,
        cpu: 9,
        size: 4,
        link: 2,
    })?;
    sheet.count(k, l)?;
    Ok(sheet)
}

// So many operators without edges, and one device of the first kind.
pub(crate) fn loose(operators: u32) -> Result<Sheet, Refusal> {
    let mut sheet = Sheet::new();
    for _ in 0..operators {
        sheet.add(Operator {
            acc: 1,
            cpu: 1,
            size: 1,
            link: 1,
        })?;
    }
    sheet.count(1, 0)?;
    Ok(sheet)
}

// Which sheet a text says.
use refusals::Refusal;
use sheet::{Operator, Sheet};
use sheet_text::read;
use std::test::Fail;

// The sheet of two operators with these edges and counts.
fn pair(edge: bool, k: u8, l: u8) -> Result<Sheet, Refusal> {
    let mut sheet = Sheet::new();
    for (acc, cpu) in [(1, 2), (5, 6)] {
        sheet.add(Operator {
            acc,
            cpu,
            size: 3,
            link: 1_000_000,
        })?;
    }
    if edge {
        sheet.join(0, 1)?;
    }
    sheet.count(k, l)?;
    Ok(sheet)
}

// Whether a text says a sheet. By operators and counts, since sheets have no equality.
fn says(text: &[u8], sheet: &Sheet) -> bool {
    match read(text) {
        Ok(said) => said.nodes() == sheet.nodes() && said.counts() == sheet.counts(),
        Err(_) => false,
    }
}

#[test]
fn texts_that_say_nothing(rt: HostRuntime) {
    let empty = Sheet::new();
    assert!(rt; says(b"", &empty));
    assert!(rt; says(b"\n", &empty));
    assert!(rt; says(b"\r\n\r\n", &empty));
    assert!(rt; says(b" \t \n# nothing\n#op 1 2 3 4", &empty));
    assert!(rt; says(b"count 0 0", &empty));
}

#[test]
fn lines_and_fields(rt: HostRuntime) -> Result<(), Fail> {
    let both = pair(true, 8, 0)?;
    assert!(rt;
        says(
            b"op 1 2 3 1000000\nop 5 6 3 1000000\nedge 0 1\ncount 8 0\n",
            &both
        )
    );
    // without a last line feed, with carriage returns, with tabs and more blanks, with comments
    assert!(rt;
        says(
            b"op 1 2 3 1000000\nop 5 6 3 1000000\nedge 0 1\ncount 8 0",
            &both
        )
    );
    assert!(rt;
        says(
            b"op 1 2 3 1000000\r\nop 5 6 3 1000000\r\nedge 0 1\r\ncount 8 0\r\n",
            &both
        )
    );
    assert!(rt;
        says(
            b"\top\t1 2  3 1000000 \n  op 5\t\t6 3 1000000\n\n\nedge 0 1\ncount 8 0\t",
            &both
        )
    );
    assert!(rt;
        says(
            b"op 1 2 3 1000000#a\nop 5 6 3 1000000 # b # c\n#\nedge 0 1#\ncount 8 0",
            &both
        )
    );
    // numbers with zeros in front
    assert!(rt;
        says(
            b"op 01 002 0003 01000000\nop 5 6 3 1000000\nedge 00 01\ncount 08 00",
            &both
        )
    );
    Ok(())
}

#[test]
fn items_in_any_order(rt: HostRuntime) -> Result<(), Fail> {
    let both = pair(true, 1, 2)?;
    assert!(rt;
        says(
            b"count 1 2\nop 1 2 3 1000000\nop 5 6 3 1000000\nedge 0 1\n",
            &both
        )
    );
    // the last counts stand
    assert!(rt;
        says(
            b"count 8 8\nop 1 2 3 1000000\nop 5 6 3 1000000\ncount 1 2\nedge 0 1\n",
            &both
        )
    );
    assert!(rt; !says(b"count 1 2\nop 1 2 3 1000000\nop 5 6 3 1000000\n", &both));
    assert!(rt;
        says(
            b"count 1 2\nop 1 2 3 1000000\nop 5 6 3 1000000\n",
            &pair(false, 1, 2)?
        )
    );
    Ok(())
}

// Edges need not ascend in a text; the sheet is the same.
#[test]
fn edges_that_do_not_ascend(rt: HostRuntime) -> Result<(), Fail> {
    let ascending = read(b"op 1 1 1 1\nop 1 1 1 1\nop 1 1 1 1\nedge 0 1\nedge 0 2\nedge 1 2")?;
    assert!(rt;
        says(
            b"op 1 1 1 1\nop 1 1 1 1\nop 1 1 1 1\nedge 1 2\nedge 0 2\nedge 0 1",
            &ascending
        )
    );
    Ok(())
}

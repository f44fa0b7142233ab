// What is wrong with a text: each error from a text of a few lines.
use refusals::Refusal;
use sheet_text::{BadLine, Cause, Slip, read};
use std::alloc::{AllocError, Global};
use std::test::Fail;

// The first bad line of a text.
fn fault(text: &[u8]) -> Option<BadLine> {
    read(text).err()
}

fn slip(line: usize, slip: Slip) -> Option<BadLine> {
    Some(BadLine {
        line,
        cause: Cause::Slip(slip),
    })
}

fn refused(line: usize, refusal: Refusal) -> Option<BadLine> {
    Some(BadLine {
        line,
        cause: Cause::Refused(refusal),
    })
}

#[test]
fn unknown_items(rt: HostRuntime) {
    assert_eq!(rt; fault(b"opp 1 2 3 4"), slip(1, Slip::UnknownItem));
    assert_eq!(rt; fault(b"\n\nOP 1 2 3 4\n"), slip(3, Slip::UnknownItem));
    assert_eq!(rt; fault(b"o 1 2 3 4"), slip(1, Slip::UnknownItem));
    assert_eq!(rt; fault(b"7"), slip(1, Slip::UnknownItem));
    assert_eq!(rt; fault(b"counts 1 2"), slip(1, Slip::UnknownItem));
    assert_eq!(rt; fault(b"op\x0b1 2 3 4"), slip(1, Slip::UnknownItem));
}

#[test]
fn missing_numbers(rt: HostRuntime) {
    assert_eq!(rt; fault(b"op"), slip(1, Slip::TooFewNumbers));
    assert_eq!(rt; fault(b"op 1 2 3"), slip(1, Slip::TooFewNumbers));
    assert_eq!(rt; fault(b"op 1 2 3 # 4"), slip(1, Slip::TooFewNumbers));
    assert_eq!(rt; fault(b"edge 0"), slip(1, Slip::TooFewNumbers));
    assert_eq!(rt; fault(b"count 1\n2"), slip(1, Slip::TooFewNumbers));
}

#[test]
fn surplus_numbers(rt: HostRuntime) {
    assert_eq!(rt; fault(b"op 1 2 3 4 5"), slip(1, Slip::TooManyNumbers));
    assert_eq!(rt; fault(b"op 1 2 3 4 x"), slip(1, Slip::TooManyNumbers));
    assert_eq!(rt; fault(b"edge 0 1 2"), slip(1, Slip::TooManyNumbers));
    assert_eq!(rt; fault(b"count 1 2 3"), slip(1, Slip::TooManyNumbers));
    assert_eq!(rt;
        fault(b"count 1 2\rcount 1 2"),
        slip(1, Slip::TooManyNumbers)
    );
}

#[test]
fn fields_that_are_no_number(rt: HostRuntime) {
    assert_eq!(rt; fault(b"op 1 2 x 4"), slip(1, Slip::NotANumber));
    assert_eq!(rt; fault(b"op 1 -2 3 4"), slip(1, Slip::NotANumber));
    assert_eq!(rt; fault(b"op +1 2 3 4"), slip(1, Slip::NotANumber));
    assert_eq!(rt; fault(b"op 1.0 2 3 4"), slip(1, Slip::NotANumber));
    assert_eq!(rt; fault(b"op 1,2,3,4"), slip(1, Slip::NotANumber));
    assert_eq!(rt; fault(b"edge 0 0x1"), slip(1, Slip::NotANumber));
}

// Digits alone are a number, however many; it may be too large for any place. Of both, that it is none is told.
#[test]
fn long_numbers(rt: HostRuntime) {
    assert_eq!(rt;
        fault(b"op 4294967295 2 3 4"),
        refused(1, Refusal::AboveLimit)
    );
    assert_eq!(rt;
        fault(b"op 4294967296 2 3 4"),
        slip(1, Slip::NumberTooLarge)
    );
    assert_eq!(rt;
        fault(b"op 9999999999 2 3 4"),
        slip(1, Slip::NumberTooLarge)
    );
    let thirty = b"op 1 2 3 123456789012345678901234567890";
    assert_eq!(rt; fault(thirty), slip(1, Slip::NumberTooLarge));
    let thirty_and_a_letter = b"op 1 2 3 123456789012345678901234567890x";
    assert_eq!(rt; fault(thirty_and_a_letter), slip(1, Slip::NotANumber));
    assert_eq!(rt; fault(b"op 1 2 3 000000000000000000000000000004"), None);
    assert_eq!(rt;
        fault(b"count 4294967295 0"),
        refused(1, Refusal::CountAboveLimit)
    );
    assert_eq!(rt;
        fault(b"edge 4294967295 0"),
        refused(1, Refusal::NoOperator)
    );
}

// The fields are read from the left, and the sheet is asked once all of a line is read.
#[test]
fn what_comes_first(rt: HostRuntime) {
    assert_eq!(rt; fault(b"op x 99999999999"), slip(1, Slip::NotANumber));
    assert_eq!(rt; fault(b"op 99999999999 x"), slip(1, Slip::NumberTooLarge));
    assert_eq!(rt; fault(b"op 1000001 2"), slip(1, Slip::TooFewNumbers));
    assert_eq!(rt; fault(b"edge 5 5 5"), slip(1, Slip::TooManyNumbers));
    assert_eq!(rt;
        fault(b"op 1 2 3 4\nedge 0 1\nwhat"),
        refused(2, Refusal::NoOperator)
    );
    assert_eq!(rt; fault(b"what\nedge 0 1"), slip(1, Slip::UnknownItem));
}

#[test]
fn what_the_sheet_refuses(rt: HostRuntime) {
    assert_eq!(rt; fault(b"op 1000000 1000000 1000000 1000000"), None);
    assert_eq!(rt; fault(b"op 1000001 0 0 0"), refused(1, Refusal::AboveLimit));
    assert_eq!(rt; fault(b"op 0 1000001 0 0"), refused(1, Refusal::AboveLimit));
    assert_eq!(rt; fault(b"op 0 0 1000001 0"), refused(1, Refusal::AboveLimit));
    assert_eq!(rt; fault(b"op 0 0 0 1000001"), refused(1, Refusal::AboveLimit));
    assert_eq!(rt; fault(b"count 8 8"), None);
    assert_eq!(rt; fault(b"count 9 0"), refused(1, Refusal::CountAboveLimit));
    assert_eq!(rt; fault(b"count 0 9"), refused(1, Refusal::CountAboveLimit));
    assert_eq!(rt; fault(b"count 256 0"), refused(1, Refusal::CountAboveLimit));
    let two = b"op 1 1 1 1\nop 1 1 1 1\nedge 0 1\n";
    assert_eq!(rt; fault(two), None);
    let missing = b"op 1 1 1 1\nop 1 1 1 1\nedge 0 2\n";
    assert_eq!(rt; fault(missing), refused(3, Refusal::NoOperator));
    let downward = b"op 1 1 1 1\nop 1 1 1 1\nedge 1 0\n";
    assert_eq!(rt; fault(downward), refused(3, Refusal::NotUpward));
    let level = b"op 1 1 1 1\nop 1 1 1 1\nedge 1 1\n";
    assert_eq!(rt; fault(level), refused(3, Refusal::NotUpward));
    let twice = b"op 1 1 1 1\nop 1 1 1 1\nedge 0 1\n\nedge 0 1\n";
    assert_eq!(rt; fault(twice), refused(5, Refusal::EdgeExists));
    let early = b"op 1 1 1 1\nedge 0 1\nop 1 1 1 1\n";
    assert_eq!(rt; fault(early), refused(2, Refusal::NoOperator));
}

// What is told of a text.
fn told(heap: Global, text: &[u8]) -> Result<String, AllocError> {
    match fault(text) {
        Some(bad) => format!(in heap; "{bad}"),
        None => format!(in heap; "good"),
    }
}

#[test]
fn errors_in_words(rt: HostRuntime) -> Result<(), Fail> {
    let unknown = told(rt.alloc(), b"op 1 2 3 4\nwhat")?;
    assert_eq!(rt; unknown.as_str(), "line 2: unknown item");
    let few = told(rt.alloc(), b"op 1 2 3")?;
    assert_eq!(rt; few.as_str(), "line 1: too few numbers");
    let many = told(rt.alloc(), b"edge 1 2 3")?;
    assert_eq!(rt; many.as_str(), "line 1: too many numbers");
    let none = told(rt.alloc(), b"edge 1 b")?;
    assert_eq!(rt; none.as_str(), "line 1: not a number");
    let large = told(rt.alloc(), b"count 1 4294967296")?;
    assert_eq!(rt; large.as_str(), "line 1: number too large");
    let refused = told(rt.alloc(), b"\n\ncount 9 9")?;
    assert_eq!(rt; refused.as_str(), "line 3: refused 6");
    Ok(())
}

// So many lines, all the same.
fn repeated(heap: Global, line: &[u8], times: usize) -> Result<Vec<u8>, AllocError> {
    let mut text = Vec::new(heap);
    for _ in 0..times {
        text.extend_from_slice(line)?;
    }
    Ok(text)
}

#[test]
fn operators_64_and_65(rt: HostRuntime) -> Result<(), Fail> {
    let full = repeated(rt.alloc(), b"op 1 2 3 4\n", 64)?;
    assert_eq!(rt; fault(&full), None);
    let over = repeated(rt.alloc(), b"op 1 2 3 4\n", 65)?;
    assert_eq!(rt; fault(&over), refused(65, Refusal::SheetFull));
    // that the sheet is full comes before a figure above its limit
    let mut both = full;
    both.extend_from_slice(b"op 1000001 2 3 4")?;
    assert_eq!(rt; fault(&both), refused(65, Refusal::SheetFull));
    Ok(())
}

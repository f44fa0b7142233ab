// The sheet file of a text, and the text of a sheet file.
use refusals::Refusal;
use sheet_text::{Cause, read};
use std::test::Fail;
use text_files::{MOST_FILE, describe_file, make_file};

#[test]
fn a_file_in_the_buffer(rt: HostRuntime) -> Result<(), Fail> {
    let mut buffer = [0xaa; MOST_FILE];
    let length = make_file(
        b"op 1 2 3 4\nop 5 6 7 8\nedge 0 1\ncount 2 1\n",
        &mut buffer,
    )?;
    assert_eq!(rt; length, 56);
    assert!(rt;
        buffer.starts_with(
            b"WEFT\x03\x01\x14\x00\x20\x00\x02\x34\x00\x02\x00\x03\x36\x00\x02\x00\x01"
        )
    );
    assert!(rt; buffer[52..].starts_with(b"\x00\x01\x02\x01\xaa"));
    Ok(())
}

#[test]
fn a_bad_line_leaves_the_buffer(rt: HostRuntime) {
    let mut buffer = [0xaa; MOST_FILE];
    let made = make_file(b"op 1 2 3 4\ncount 2 9\n", &mut buffer);
    assert_eq!(rt;
        made.map_err(|bad| (bad.line, bad.cause)),
        Err((2, Cause::Refused(Refusal::CountAboveLimit)))
    );
    assert!(rt; buffer.iter().all(|byte| *byte == 0xaa));
}

#[test]
fn the_text_of_a_file(rt: HostRuntime) -> Result<(), Fail> {
    let mut buffer = [0; MOST_FILE];
    let length = make_file(b"op 1 2 3 4 # one\nop 5 6 7 8\nedge 0 1", &mut buffer)?;
    let told = describe_file(rt.alloc(), &buffer[..length.min(MOST_FILE)])?;
    assert_eq!(rt;
        told.as_str(),
        "op 1 2 3 4\nop 5 6 7 8\nedge 0 1\ncount 0 0\n"
    );
    Ok(())
}

#[test]
fn files_that_are_refused(rt: HostRuntime) -> Result<(), Fail> {
    let none = describe_file(rt.alloc(), b"")?;
    assert_eq!(rt; none.as_str(), "refused 12\n");
    let mut buffer = [0; MOST_FILE];
    let length = make_file(b"op 1 2 3 4\nop 5 6 7 8\nedge 0 1", &mut buffer)?;
    buffer[52] = 1;
    let level = describe_file(rt.alloc(), &buffer[..length.min(MOST_FILE)])?;
    assert_eq!(rt; level.as_str(), "refused 14 2 0 4\n");
    // and the line of a refusal is no text
    assert!(rt; read(level.as_str().as_bytes()).is_err());
    Ok(())
}

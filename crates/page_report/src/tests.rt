// What is printed for whole files, byte for byte.
use super::{MOST_PAGE, split_page};
use refusals::Refusal;
use sheet::{Operator, Sheet};
use std::process::Abort;
use std::test::Fail;

const DIAMOND: &[u8; 94] = b"WEFT\x03\
    \x01\x14\x00\x40\x00\
    \x02\x54\x00\x08\x00\
    \x03\x5C\x00\x02\x00\
    \x02\x00\x00\x00\x06\x00\x00\x00\x01\x00\x00\x00\x01\x00\x00\x00\
    \x04\x00\x00\x00\x08\x00\x00\x00\x02\x00\x00\x00\x01\x00\x00\x00\
    \x03\x00\x00\x00\x09\x00\x00\x00\x02\x00\x00\x00\x01\x00\x00\x00\
    \x02\x00\x00\x00\x05\x00\x00\x00\x01\x00\x00\x00\x01\x00\x00\x00\
    \x00\x01\x00\x02\x01\x03\x02\x03\
    \x02\x00";

// Whether what is printed for a file begins so.
fn prints(file: &[u8], start: &[u8]) -> bool {
    let mut buffer = [0; MOST_PAGE];
    let length = split_page(file, &mut buffer);
    buffer[..length].starts_with(start)
}

// What is printed for operators without edges, each of which takes one tick on an accelerator and two on a processor.
fn check_loose<A: Abort>(rt: &A, operators: u8, k: u8, l: u8, start: &[u8]) -> Result<(), Refusal> {
    let mut sheet = Sheet::new();
    for _ in 0..operators {
        sheet.add(Operator {
            acc: 1,
            cpu: 2,
            size: 1,
            link: 1,
        })?;
    }
    sheet.count(k, l)?;
    let mut file = [0; 256];
    let length = sheet_file::write(&sheet, &mut file)?;
    assert!(rt; prints(file.get(..length).unwrap_or(&[]), start));
    Ok(())
}

#[test]
fn the_whole_page_of_the_diamond(rt: HostRuntime) -> Result<(), Fail> {
    let mut buffer = [b'.'; MOST_PAGE];
    assert_eq!(rt; split_page(DIAMOND, &mut buffer), 28);
    assert!(rt; buffer.starts_with(b"stages 2 pace 8\nA 0 1\nA 2 3\n."));
    Ok(())
}

#[test]
fn an_empty_file(rt: HostRuntime) -> Result<(), Fail> {
    assert!(rt; prints(b"", b"refused 12\n"));
    Ok(())
}

// The values that come with a refusal are not told.
#[test]
fn an_edge_that_leads_down(rt: HostRuntime) -> Result<(), Fail> {
    let mut file = *DIAMOND;
    file[84] = 2;
    file[85] = 1;
    assert!(rt; prints(&file, b"refused 14\n"));
    Ok(())
}

#[test]
fn no_devices(rt: HostRuntime) -> Result<(), Fail> {
    check_loose(&rt, 1, 0, 0, b"refused 9\n")?;
    Ok(())
}

// The 512 ideals of nine such operators have just the cells that there are, eight each.
#[test]
fn as_many_ideals_and_cells_as_there_is_room_for(rt: HostRuntime) -> Result<(), Fail> {
    check_loose(&rt, 9, 1, 3, b"stages 4 pace 4\n")?;
    Ok(())
}

#[test]
fn too_few_cells(rt: HostRuntime) -> Result<(), Fail> {
    check_loose(&rt, 9, 2, 2, b"refused 8\n")?;
    Ok(())
}

#[test]
fn too_many_ideals(rt: HostRuntime) -> Result<(), Fail> {
    check_loose(&rt, 10, 1, 3, b"refused 7\n")?;
    Ok(())
}

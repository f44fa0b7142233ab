// Whole reports, byte for byte.
use super::{describe, report};
use device::Accelerator;
use refusals::Refusal;
use sheet::{Operator, Sheet};
use std::alloc::Global;
use std::process::Abort;
use std::test::Fail;

const DIAMOND: &[u8; 94] = b"WEFT\x03\
    \x01\x14\x00\x40\x00\
    \x02\x54\x00\x08\x00\
    \x03\x5C\x00\x02\x00\
    \x02\x00\x00\x00\x06\x00\x00\x00\x01\x00\x00\x00\x01\x00\x00\x00\
    \x04\x00\x00\x00\x08\x00\x00\x00\x02\x00\x00\x00\x01\x00\x00\x00\
    \x03\x00\x00\x00\x09\x00\x00\x00\x02\x00\x00\x00\x01\x00\x00\x00\
    \x02\x00\x00\x00\x05\x00\x00\x00\x01\x00\x00\x00\x01\x00\x00\x00\
    \x00\x01\x00\x02\x01\x03\x02\x03\
    \x02\x00";

const FIRST_EDGE: usize = 84;

const COUNTS: usize = 92;

const DESCRIPTION: &str = "operators 4\n\
    edges 4\n\
    counts 2 0\n\
    0: acc 2 cpu 6 size 1 link 1, predecessors none, successors 1 2\n\
    1: acc 4 cpu 8 size 2 link 1, predecessors 0, successors 3\n\
    2: acc 3 cpu 9 size 2 link 1, predecessors 0, successors 3\n\
    3: acc 2 cpu 5 size 1 link 1, predecessors 1 2, successors none\n\
    network: acc 11 cpu 28 size 6 in 0 out 0\n";

const PROCESSOR: &str = "processor: ticks 28 link 0, peak 28 line 28 pair 28 0\n";

// Both halves of the diamond take 8 ticks at most; all of it takes 11 in one stage.
const WHOLE_FITS: &str = "ideals 6\n\
    least peak 8: A 0 1; A 2 3\n\
    least line 11: A 0 1 2 3\n\
    least pair 8 2: A 0 1; A 2 3\n";

// Of the splits into two stages that with operator 0 alone moves the least data.
const HALVES_FIT: &str = "ideals 6\n\
    least peak 8: A 0 1; A 2 3\n\
    least line 13: A 0; A 1 2 3\n\
    least pair 8 2: A 0 1; A 2 3\n";

fn check_diamond(
    rt: &impl Abort,
    heap: Global,
    limit: u32,
    line: &str,
    plan: &str,
) -> Result<(), Fail> {
    let text = report(heap, DIAMOND, limit)?;
    let expected = format!(in heap; "{DESCRIPTION}{line}{PROCESSOR}{plan}")?;
    assert_eq!(rt; text.as_str(), expected.as_str());
    Ok(())
}

#[test]
fn reports_a_network_that_fits(rt: HostRuntime) -> Result<(), Fail> {
    let line = "accelerator 6: ticks 11 link 0, peak 11 line 11 pair 11 0\n";
    check_diamond(&rt, rt.alloc(), 6, line, WHOLE_FITS)
}

#[test]
fn reports_a_network_that_does_not_fit(rt: HostRuntime) -> Result<(), Fail> {
    let line = "accelerator 5: does not fit\n";
    check_diamond(&rt, rt.alloc(), 5, line, HALVES_FIT)
}

#[test]
fn reports_on_the_largest_accelerator(rt: HostRuntime) -> Result<(), Fail> {
    let line = "accelerator 1000000000: ticks 11 link 0, peak 11 line 11 pair 11 0\n";
    check_diamond(&rt, rt.alloc(), 1_000_000_000, line, WHOLE_FITS)
}

// Operators 1 and 2 have size 2, and there is no processor.
#[test]
fn reports_that_there_is_no_lawful_split(rt: HostRuntime) -> Result<(), Fail> {
    let line = "accelerator 1: does not fit\n";
    let plan = "ideals 6\nleast peak none\nleast line none\nleast pair none\n";
    check_diamond(&rt, rt.alloc(), 1, line, plan)
}

// One accelerator and one processor: operator 0 takes 6 ticks on the processor, the others 10 on the accelerator.
#[test]
fn reports_a_stage_on_a_processor(rt: HostRuntime) -> Result<(), Fail> {
    let mut file = *DIAMOND;
    file[COUNTS] = 1;
    file[COUNTS + 1] = 1;
    let text = report(rt.alloc(), &file, 6)?;
    let plan = "ideals 6\n\
        least peak 10: B 0; A 1 2 3\n\
        least line 11: A 0 1 2 3\n\
        least pair 10 1: B 0; A 1 2 3\n";
    assert!(rt; text.as_str().ends_with(plan));
    Ok(())
}

#[test]
fn reports_a_sheet_without_operators(rt: HostRuntime) -> Result<(), Fail> {
    let text = describe(rt.alloc(), &Sheet::new(), &Accelerator::new(0)?)?;
    let plan = "ideals 1\n\
        least peak 0: no stages\n\
        least line 0: no stages\n\
        least pair 0 0: no stages\n";
    assert!(rt; text.as_str().ends_with(plan));
    Ok(())
}

// So many operators without edges, and one processor.
fn loose(operators: usize) -> Result<Sheet, Refusal> {
    let mut sheet = Sheet::new();
    for _ in 0..operators {
        sheet.add(Operator {
            acc: 1,
            cpu: 2,
            size: 1,
            link: 1,
        })?;
    }
    sheet.count(0, 1)?;
    Ok(sheet)
}

#[test]
fn reports_the_most_ideals(rt: HostRuntime) -> Result<(), Fail> {
    let text = describe(rt.alloc(), &loose(12)?, &Accelerator::new(0)?)?;
    let plan = "ideals 4096\n\
        least peak 24: B 0 1 2 3 4 5 6 7 8 9 10 11\n\
        least line 24: B 0 1 2 3 4 5 6 7 8 9 10 11\n\
        least pair 24 0: B 0 1 2 3 4 5 6 7 8 9 10 11\n";
    assert!(rt; text.as_str().ends_with(plan));
    Ok(())
}

#[test]
fn reports_too_many_ideals(rt: HostRuntime) -> Result<(), Fail> {
    let text = describe(rt.alloc(), &loose(13)?, &Accelerator::new(0)?)?;
    let plan = "pair 26 0\nideals more than 4096\n";
    assert!(rt; text.as_str().ends_with(plan));
    Ok(())
}

#[test]
fn reports_a_limit_that_is_refused(rt: HostRuntime) -> Result<(), Fail> {
    let text = report(rt.alloc(), DIAMOND, 1_000_000_001)?;
    assert_eq!(rt; text.as_str(), "refused 1\n");
    Ok(())
}

#[test]
fn reports_an_edge_that_leads_down(rt: HostRuntime) -> Result<(), Fail> {
    let mut file = *DIAMOND;
    file[FIRST_EDGE] = 2;
    file[FIRST_EDGE + 1] = 1;
    let text = report(rt.alloc(), &file, 6)?;
    assert_eq!(rt; text.as_str(), "refused 14 2 0 4\n");
    Ok(())
}

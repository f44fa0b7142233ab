// Graphs byte for byte: with stages, and where the split is refused.
use sheet_graph::{draw, draw_file};
use sheet_text::read;
use std::test::Fail;

#[test]
fn a_stage_of_each_kind(rt: HostRuntime) -> Result<(), Fail> {
    let sheet = read(b"op 10 20 1 1\nop 30 5 1 1\nedge 0 1\ncount 1 1")?;
    let graph = draw(rt.alloc(), &sheet)?;
    let due = "digraph sheet {\n\
        subgraph cluster_0 {\nlabel=\"stage 0 A\";\n0 [label=\"0\\nacc 10 cpu 20\\nsize 1 link 1\"];\n}\n\
        subgraph cluster_1 {\nlabel=\"stage 1 B\";\n1 [label=\"1\\nacc 30 cpu 5\\nsize 1 link 1\"];\n}\n\
        0 -> 1;\n}\n";
    assert_eq!(rt; graph.as_str(), due);
    Ok(())
}

#[test]
fn no_devices(rt: HostRuntime) -> Result<(), Fail> {
    let sheet = read(b"op 10 20 1 1")?;
    let graph = draw(rt.alloc(), &sheet)?;
    let due =
        "digraph sheet {\nlabel=\"refused 9\";\n0 [label=\"0\\nacc 10 cpu 20\\nsize 1 link 1\"];\n}\n";
    assert_eq!(rt; graph.as_str(), due);
    Ok(())
}

#[test]
fn no_operators(rt: HostRuntime) -> Result<(), Fail> {
    let graph = draw(rt.alloc(), &read(b"")?)?;
    assert_eq!(rt; graph.as_str(), "digraph sheet {\n}\n");
    Ok(())
}

// Operators without edges have 2 to their count ideals: of nine as many as there is room for, with eight cells each.
#[test]
fn too_many_ideals_and_too_few_cells(rt: HostRuntime) -> Result<(), Fail> {
    let nine =
        b"op 1 2 1 1\nop 1 2 1 1\nop 1 2 1 1\nop 1 2 1 1\nop 1 2 1 1\nop 1 2 1 1\nop 1 2 1 1\nop 1 2 1 1\nop 1 2 1 1\ncount 1 3";
    let mut sheet = read(nine)?;
    let whole = draw(rt.alloc(), &sheet)?;
    assert!(rt;
        whole
            .as_str()
            .starts_with("digraph sheet {\nsubgraph cluster_0 {\n")
    );
    sheet.count(2, 2)?;
    let cells = draw(rt.alloc(), &sheet)?;
    assert!(rt;
        cells
            .as_str()
            .starts_with("digraph sheet {\nlabel=\"refused 8\";\n0 [")
    );
    let ten =
        b"op 1 2 1 1\nop 1 2 1 1\nop 1 2 1 1\nop 1 2 1 1\nop 1 2 1 1\nop 1 2 1 1\nop 1 2 1 1\nop 1 2 1 1\nop 1 2 1 1\nop 1 2 1 1\ncount 1 3";
    let ideals = draw(rt.alloc(), &read(ten)?)?;
    assert!(rt;
        ideals
            .as_str()
            .starts_with("digraph sheet {\nlabel=\"refused 7\";\n0 [")
    );
    Ok(())
}

#[test]
fn a_file_that_is_refused(rt: HostRuntime) -> Result<(), Fail> {
    let graph = draw_file(rt.alloc(), b"WEFT")?;
    assert_eq!(rt; graph.as_str(), "refused 12\n");
    Ok(())
}

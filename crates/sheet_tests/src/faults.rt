// Each refusal of a file, from a good file with one or two bytes changed.
use super::samples::{DIAMOND, EMPTY};
use refusals::{Reason, Refusal, Section};
use sheet_file::load;
use std::test::Fail;

// Why a file is refused.
pub(crate) fn refusal(file: &[u8]) -> Option<Refusal> {
    load(file).err()
}

// The diamond with the byte at a place changed, and with the bytes at two places changed.
fn damaged(at: usize, byte: u8) -> Option<Refusal> {
    twice_damaged(at, byte, at, byte)
}

fn twice_damaged(at: usize, byte: u8, other: usize, another: u8) -> Option<Refusal> {
    let mut file = DIAMOND;
    if at < 94 && other < 94 {
        file[at] = byte;
        file[other] = another;
    }
    refusal(&file)
}

fn contents(index: u8) -> Option<Refusal> {
    Some(Refusal::ContentsEntry(index))
}

fn body(section: Section, entry: usize, reason: Reason) -> Option<Refusal> {
    Some(Refusal::BodyEntry {
        section: section.number(),
        entry,
        reason,
    })
}

#[test]
fn good_files_are_read(rt: HostRuntime) {
    assert_eq!(rt; refusal(&DIAMOND), None);
    assert_eq!(rt; refusal(&EMPTY), None);
}

#[test]
fn letters_and_their_count(rt: HostRuntime) {
    for at in 0..5 {
        assert_eq!(rt; damaged(at, 0), Some(Refusal::NotASheetFile));
    }
    assert_eq!(rt; damaged(4, 2), Some(Refusal::NotASheetFile));
    assert_eq!(rt; damaged(4, 4), Some(Refusal::NotASheetFile));
}

#[test]
fn every_length_to_30(rt: HostRuntime) {
    for n in 0..31 {
        let due = if n < 20 {
            Some(Refusal::NotASheetFile)
        } else {
            contents(0)
        };
        assert_eq!(rt; refusal(&DIAMOND[0..n]), due);
    }
    let mut longer = [0; 31];
    longer[0..22].copy_from_slice(&EMPTY);
    for n in 0..31 {
        let due = if n < 20 {
            Some(Refusal::NotASheetFile)
        } else if n == 22 {
            None
        } else {
            contents(2)
        };
        assert_eq!(rt; refusal(&longer[0..n]), due);
    }
}

#[test]
fn contents_entries(rt: HostRuntime) {
    // sections, offsets by their low and high bytes, lengths
    assert_eq!(rt; damaged(5, 2), contents(0));
    assert_eq!(rt; damaged(6, 21), contents(0));
    assert_eq!(rt; damaged(7, 1), contents(0));
    assert_eq!(rt; damaged(8, 65), contents(0));
    assert_eq!(rt; damaged(9, 4), contents(0));
    assert_eq!(rt; damaged(10, 1), contents(1));
    assert_eq!(rt; damaged(11, 83), contents(1));
    assert_eq!(rt; damaged(13, 7), contents(1));
    assert_eq!(rt; damaged(13, 10), contents(2));
    assert_eq!(rt; damaged(14, 1), contents(1));
    assert_eq!(rt; damaged(15, 2), contents(2));
    assert_eq!(rt; damaged(16, 91), contents(2));
    assert_eq!(rt; damaged(18, 0), contents(2));
    assert_eq!(rt; damaged(18, 4), contents(2));
}

#[test]
fn high_bytes_of_contents_entries(rt: HostRuntime) {
    assert_eq!(rt; damaged(12, 1), contents(1));
    assert_eq!(rt; damaged(17, 1), contents(2));
    assert_eq!(rt; damaged(19, 1), contents(2));
}

#[test]
fn the_counts_have_two_bytes(rt: HostRuntime) {
    let mut longer = [0; 96];
    longer[0..94].copy_from_slice(&DIAMOND);
    longer[18] = 4;
    assert_eq!(rt; refusal(&longer), contents(2));
    let mut shorter = [0; 92];
    shorter.copy_from_slice(&DIAMOND[0..92]);
    shorter[18] = 0;
    assert_eq!(rt; refusal(&shorter), contents(2));
}

#[test]
fn the_last_body_ends_with_the_file(rt: HostRuntime) {
    assert_eq!(rt; refusal(&DIAMOND[0..93]), contents(2));
    let mut longer = [0; 95];
    longer[0..94].copy_from_slice(&DIAMOND);
    assert_eq!(rt; refusal(&longer), contents(2));
}

#[test]
fn rows_of_figures(rt: HostRuntime) {
    // 1,000,000 is 40 42 0F and 1,000,001 is 41 42 0F, the low byte first
    for v in 0..4 {
        for figure in 0..4 {
            let at = 20 + 16 * v + 4 * figure;
            assert_eq!(rt; limit_figure(at, 0x40), None);
            assert_eq!(rt;
                limit_figure(at, 0x41),
                body(Section::Operators, v, Reason::AboveLimit)
            );
        }
    }
    assert_eq!(rt;
        damaged(23, 1),
        body(Section::Operators, 0, Reason::AboveLimit)
    );
}

fn limit_figure(at: usize, low: u8) -> Option<Refusal> {
    let mut file = DIAMOND;
    if at < 90 {
        file[at] = low;
        file[at + 1] = 0x42;
        file[at + 2] = 0x0f;
    }
    refusal(&file)
}

#[test]
fn pairs_of_operators(rt: HostRuntime) {
    // the first pair stands at 84
    assert_eq!(rt;
        twice_damaged(84, 2, 85, 1),
        body(Section::Edges, 0, Reason::NotUpward)
    );
    assert_eq!(rt;
        twice_damaged(84, 1, 85, 1),
        body(Section::Edges, 0, Reason::NotUpward)
    );
    assert_eq!(rt;
        twice_damaged(84, 4, 85, 4),
        body(Section::Edges, 0, Reason::NoOperator)
    );
    assert_eq!(rt; damaged(85, 4), body(Section::Edges, 0, Reason::NoOperator));
    assert_eq!(rt;
        twice_damaged(85, 2, 87, 1),
        body(Section::Edges, 1, Reason::NotAscending)
    );
    assert_eq!(rt;
        damaged(87, 1),
        body(Section::Edges, 1, Reason::NotAscending)
    );
    assert_eq!(rt; twice_damaged(88, 0, 89, 3), None);
    assert_eq!(rt; damaged(91, 4), body(Section::Edges, 3, Reason::NoOperator));
    assert_eq!(rt; damaged(90, 3), body(Section::Edges, 3, Reason::NotUpward));
    assert_eq!(rt;
        damaged(90, 1),
        body(Section::Edges, 3, Reason::NotAscending)
    );
    assert_eq!(rt;
        twice_damaged(90, 0, 91, 3),
        body(Section::Edges, 3, Reason::NotAscending)
    );
}

#[test]
fn checks_of_one_pair_in_their_order(rt: HostRuntime) {
    assert_eq!(rt;
        twice_damaged(90, 0, 91, 9),
        body(Section::Edges, 3, Reason::NoOperator)
    );
    assert_eq!(rt;
        twice_damaged(86, 0, 87, 0),
        body(Section::Edges, 1, Reason::NotUpward)
    );
    assert_eq!(rt;
        twice_damaged(90, 9, 91, 0),
        body(Section::Edges, 3, Reason::NoOperator)
    );
}

#[test]
fn counts_of_devices(rt: HostRuntime) {
    assert_eq!(rt; twice_damaged(92, 8, 93, 8), None);
    assert_eq!(rt;
        damaged(92, 9),
        body(Section::Counts, 0, Reason::CountAboveLimit)
    );
    assert_eq!(rt;
        damaged(93, 9),
        body(Section::Counts, 0, Reason::CountAboveLimit)
    );
}

#[test]
fn the_first_of_two_faults_is_told(rt: HostRuntime) {
    assert_eq!(rt; twice_damaged(0, 0, 5, 9), Some(Refusal::NotASheetFile));
    assert_eq!(rt; twice_damaged(4, 0, 84, 9), Some(Refusal::NotASheetFile));
    assert_eq!(rt; twice_damaged(15, 9, 5, 9), contents(0));
    assert_eq!(rt; twice_damaged(15, 9, 23, 9), contents(2));
    assert_eq!(rt;
        twice_damaged(23, 9, 84, 9),
        body(Section::Operators, 0, Reason::AboveLimit)
    );
    assert_eq!(rt;
        twice_damaged(84, 9, 92, 9),
        body(Section::Edges, 0, Reason::NoOperator)
    );
    assert_eq!(rt;
        twice_damaged(71, 9, 39, 9),
        body(Section::Operators, 1, Reason::AboveLimit)
    );
    assert_eq!(rt;
        twice_damaged(90, 9, 87, 1),
        body(Section::Edges, 1, Reason::NotAscending)
    );
}

#[test]
fn a_refusal_names_any_section(rt: HostRuntime) -> Result<(), Fail> {
    for (section, told) in [(0, "14 0 7 1"), (4, "14 4 7 1"), (255, "14 255 7 1")] {
        let refusal = Refusal::BodyEntry {
            section,
            entry: 7,
            reason: Reason::AboveLimit,
        };
        let text = format!(in rt.alloc(); "{refusal}")?;
        assert_eq!(rt; text.as_str(), told);
    }
    Ok(())
}

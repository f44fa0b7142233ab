// Files at the limits of their sections, laid out byte by byte.
ghost use Rattle.std.specs.Prelude.{◌≤◌};

use super::faults::refusal;
use super::samples::DIAMOND;
use refusals::{Refusal, Section};
use sheet::Counts;
use sheet_file::{Reader, load};
use std::test::Fail;

const ROOM: usize = 5200;

// A contents entry.
fn put_entry(file: &mut [u8; ROOM], at: usize, section: Section, offset: u16, length: u16)
    requires { at ≤ 15 }
{
    let [a, b] = offset.to_le_bytes();
    let [c, d] = length.to_le_bytes();
    file[at..at + 5].copy_from_slice(&[section.number(), a, b, c, d]);
}

// All pairs of the first 64 operators, ascending, as far as the place takes them.
fn put_pairs(place: &mut [u8]) {
    let pairs = (0u8..64).flat_map(|u| (u + 1..64).map(move |v| [u, v]));
    for (bytes, pair) in place.chunks_exact_mut(2).zip(pairs) {
        bytes.copy_from_slice(&pair);
    }
}

// A file of so many operators without figures, with so many edges of the network that has all of them; its length.
fn lay_out(file: &mut [u8; ROOM], operators: u16, edges: u16) -> usize
    requires { (operators ≤ 65) × (edges ≤ 2017) }
    ensures { result ≤ 5096 }
{
    let rows = 16 * operators;
    let pairs = 2 * edges;
    let edges_at = 20 + rows;
    let counts_at = edges_at + pairs;
    file[..4].copy_from_slice(b"WEFT");
    file[4] = 3;
    put_entry(file, 5, Section::Operators, 20, rows);
    put_entry(file, 10, Section::Edges, edges_at, pairs);
    put_entry(file, 15, Section::Counts, counts_at, 2);
    let counts = usize::from(counts_at);
    put_pairs(&mut file[usize::from(edges_at)..]);
    file[counts..counts + 2].copy_from_slice(&[8, 8]);
    counts + 2
}

// What such a file is refused for.
fn laid_out(operators: u16, edges: u16) -> Option<Refusal>
    requires { (operators ≤ 65) × (edges ≤ 2017) }
{
    let mut file = [0; ROOM];
    let length = lay_out(&mut file, operators, edges);
    refusal(&file[..length])
}

#[test]
fn operators_64_and_65(rt: HostRuntime) {
    assert_eq!(rt; laid_out(63, 0), None);
    assert_eq!(rt; laid_out(64, 0), None);
    assert_eq!(rt; laid_out(65, 0), Some(Refusal::ContentsEntry(0)));
}

#[test]
fn edges_of_4032_and_4034_bytes(rt: HostRuntime) {
    assert_eq!(rt; laid_out(64, 2015), None);
    assert_eq!(rt; laid_out(64, 2016), None);
    assert_eq!(rt; laid_out(64, 2017), Some(Refusal::ContentsEntry(1)));
}

#[test]
fn the_fullest_sheet_is_read_whole(rt: HostRuntime) -> Result<(), Fail> {
    let mut file = [0; ROOM];
    let length = lay_out(&mut file, 64, 2016);
    assert!(rt; length == 5078);
    let sheet = load(&file[0..5078])?;
    assert_eq!(rt; sheet.operators(), 64);
    assert_eq!(rt; sheet.edges(), 2016);
    assert_eq!(rt; sheet.successors(0), u64::MAX - 1);
    assert_eq!(rt; sheet.predecessors(63), u64::MAX >> 1);
    assert_eq!(rt; sheet.counts(), Counts { k: 8, l: 8 });
    Ok(())
}

#[test]
fn a_reader_hands_out_the_bodies_with_their_places(rt: HostRuntime) -> Result<(), Fail> {
    let reader = Reader::open(&DIAMOND)?;
    assert_eq!(rt; reader.file().len(), 94);
    assert_eq!(rt; reader.operators().place, 20);
    assert_eq!(rt; reader.operators().bytes, &DIAMOND[20..84]);
    assert_eq!(rt; reader.edges().place, 84);
    assert_eq!(rt; reader.edges().bytes, [0, 1, 0, 2, 1, 3, 2, 3].as_slice());
    assert_eq!(rt; reader.counts().place, 92);
    assert_eq!(rt; reader.counts().bytes, [2, 0].as_slice());
    Ok(())
}

// A sheet file, judged as the format says.
use super::nets::{Net, Row};
use refusals::{Reason, Refusal, Section};

// A number of so many bytes at a place, the low byte first.
fn number(bytes: &[u8], at: usize, size: usize) -> u32 {
    let mut number: u32 = 0;
    let mut unit: u32 = 1;
    for byte in bytes.iter().skip(at).take(size) {
        number = number.wrapping_add(unit.wrapping_mul(u32::from(*byte)));
        unit = unit.wrapping_mul(256);
    }
    number
}

fn begins(file: &[u8]) -> bool {
    file.len() >= 20 && &file[..4] == b"WEFT".as_slice() && file[4] == 3
}

// The lengths of the three bodies.
fn lengths(file: &[u8]) -> Result<[u32; 3], Refusal> {
    let mut lengths = [0; 3];
    let mut due: u32 = 20;
    let rules = [(16, 0, 1024), (2, 0, 4032), (2, 2, 2)];
    for (index, (unit, least, most)) in rules.into_iter().enumerate() {
        let at = 5 + 5 * index;
        let section = number(file, at, 1);
        let offset = number(file, at + 1, 2);
        let length = number(file, at + 3, 2);
        let end = due.saturating_add(length) as usize;
        let is_whole = length % unit == 0 && least <= length && length <= most;
        let is_inside = end <= file.len() && (index < 2 || end == file.len());
        if section as usize != index + 1 || offset != due || !is_whole || !is_inside {
            return Err(Refusal::ContentsEntry(index as u8));
        }
        lengths[index] = length;
        due = due.saturating_add(length);
    }
    Ok(lengths)
}

// Why an entry of a body is refused, by what a change is refused for.
fn reason(refusal: Refusal) -> Reason {
    match refusal {
        Refusal::AboveLimit => Reason::AboveLimit,
        Refusal::NoOperator => Reason::NoOperator,
        Refusal::NotUpward => Reason::NotUpward,
        Refusal::CountAboveLimit => Reason::CountAboveLimit,
        _ => Reason::NotAscending,
    }
}

fn wrong(section: Section, entry: usize, refusal: Refusal) -> Refusal {
    Refusal::BodyEntry {
        section: section.number(),
        entry,
        reason: reason(refusal),
    }
}

fn read_rows(net: &mut Net, body: &[u8]) -> Result<(), Refusal> {
    for (entry, bytes) in body.chunks_exact(16).enumerate() {
        let row = Row {
            acc: number(bytes, 0, 4),
            cpu: number(bytes, 4, 4),
            size: number(bytes, 8, 4),
            link: number(bytes, 12, 4),
        };
        if let Err(refusal) = net.add(&row) {
            return Err(wrong(Section::Operators, entry, refusal));
        }
    }
    Ok(())
}

fn read_edges(net: &mut Net, body: &[u8]) -> Result<(), Refusal> {
    let mut before = None;
    for (entry, bytes) in body.chunks_exact(2).enumerate() {
        let from = number(bytes, 0, 1) as usize;
        let to = number(bytes, 1, 1) as usize;
        if let Err(refusal) = net.join(from, to) {
            return Err(wrong(Section::Edges, entry, refusal));
        }
        if let Some(pair) = before
            && (from, to) <= pair
        {
            return Err(wrong(Section::Edges, entry, Refusal::EdgeExists));
        }
        before = Some((from, to));
    }
    Ok(())
}

fn read_counts(net: &mut Net, body: &[u8]) -> Result<(), Refusal> {
    let [k, l] = body else {
        return Ok(());
    };
    net.count(*k, *l)
        .map_err(|refusal| wrong(Section::Counts, 0, refusal))
}

// The first so many bytes, and those after them.
fn cut(bytes: &[u8], at: usize) -> (&[u8], &[u8]) {
    bytes.split_at(at.min(bytes.len()))
}

// The sheet that a file says, or the first thing that is wrong with it.
pub(crate) fn judge(file: &[u8]) -> Result<Net, Refusal> {
    if !begins(file) {
        return Err(Refusal::NotASheetFile);
    }
    let [rows, edges, _counts] = lengths(file)?;
    let mut net = Net::new();
    let (_, bodies) = cut(file, 20);
    let (rows_body, bodies) = cut(bodies, rows as usize);
    let (edges_body, counts_body) = cut(bodies, edges as usize);
    read_rows(&mut net, rows_body)?;
    read_edges(&mut net, edges_body)?;
    read_counts(&mut net, counts_body)?;
    Ok(net)
}

// A planner for an accelerator and a processor as the rules have it, with a sheet of plain numbers.
ghost use Rattle.std.specs.Prelude.{◌≡◌, ◌≤◌, length};

use super::buffers::Buffer;
use super::costs::Ratings;
use super::files::judge;
use super::nets::{Net, Row, holds};
use super::searches::{Candidate, Walk, least};
use device::WhichKind;
use refusals::Refusal;

// The kind of a stage and its mask.
#[derive(Clone, Copy)]
pub(crate) struct Part {
    pub(crate) kind: u8,
    pub(crate) mask: u64,
}

// A split: its stages, and what it rates.
#[derive(Clone, Copy)]
pub(crate) struct Standing {
    parts: [Part; 16],
    count: usize,
    rated: Ratings,
    ghost all: { length parts ≡ 16 },
    ghost few: { count ≤ 16 },
}

#[derive(Clone, Copy)]
pub(crate) struct Model {
    pub(crate) net: Net,
    limit: u32,
    standing: Option<Standing>,
}

// The lengths of the three tables of a plan.
#[derive(Clone, Copy, Debug)]
pub(crate) struct Lengths {
    pub(crate) ideals: usize,
    pub(crate) ratings: usize,
    pub(crate) choices: usize,
}

// Whether a mask holds, with each of its operators, all that have an edge to it.
fn is_ideal(net: &Net, mask: u64) -> bool {
    let mut is_ideal = true;
    for from in 0..net.rows().len() {
        for to in 0..net.rows().len() {
            if net.has_edge(from, to) && holds(mask, to) && !holds(mask, from) {
                is_ideal = false;
            }
        }
    }
    is_ideal
}

// How many ideals a sheet of at most five operators has.
pub(crate) fn ideals(net: &Net) -> usize {
    let mut count: usize = 0;
    for mask in 0..32 {
        if mask & !net.all() == 0 && is_ideal(net, mask) {
            count = count.saturating_add(1);
        }
    }
    count
}

// How many cells each ideal has.
pub(crate) fn cells(net: &Net, ideals: usize) -> usize {
    let columns = (usize::from(net.k) + 1) * (usize::from(net.l) + 1);
    columns.saturating_mul(ideals)
}

// How many operators a mask holds.
fn size(mask: u64) -> u32 {
    let mut size: u32 = 0;
    for v in 0..64 {
        if holds(mask, v) {
            size = size.saturating_add(1);
        }
    }
    size
}

impl Standing {
    pub(crate) fn parts(&self) -> &[Part] {
        &self.parts[..self.count]
    }

    // These stages, if they are a lawful split of the sheet.
    pub(crate) fn new(net: &Net, limit: u32, parts: &[Part]) -> Option<Standing> {
        let all = net.all();
        let mut walk = Walk::new(net);
        let mut kept = [Part { kind: 0, mask: 0 }; 16];
        let count = parts.len();
        if count > 16 {
            return None;
        }
        for (place, part) in kept.iter_mut().zip(parts) {
            let kind = match part.kind {
                1 => WhichKind::First,
                2 => WhichKind::Second,
                _ => return None,
            };
            walk = walk.then(all, kind, &Candidate::new(net, limit, part.mask))?;
            *place = *part;
        }
        Some(Standing {
            parts: kept,
            count,
            rated: walk.rated(all)?,
        })
    }

    fn page(&self) -> Buffer {
        let mut page = Buffer::new();
        page.push_all(b"stages ");
        page.push_decimal(self.count as u32);
        page.push_all(b" pace ");
        // the pace is what a split rates on peak
        page.push_decimal(self.rated.peak);
        page.push(b'\n');
        for part in self.parts() {
            page.push(if part.kind == 1 { b'A' } else { b'B' });
            for v in 0..64 {
                if holds(part.mask, v) {
                    page.push(b' ');
                    page.push_decimal(v as u32);
                }
            }
            page.push(b'\n');
        }
        page
    }
}

impl Model {
    pub(crate) fn new(limit: u32) -> Model {
        Model {
            net: Net::new(),
            limit,
            standing: None,
        }
    }

    // ---- the calls that change it

    pub(crate) fn add(&mut self, row: &Row) -> Result<usize, Refusal> {
        let v = self.net.add(row)?;
        self.standing = None;
        Ok(v)
    }

    pub(crate) fn join(&mut self, from: usize, to: usize) -> Result<(), Refusal> {
        self.net.join(from, to)?;
        self.standing = None;
        Ok(())
    }

    pub(crate) fn retime(&mut self, v: usize, row: &Row) -> Result<(), Refusal> {
        self.net.retime(v, row)?;
        self.standing = None;
        Ok(())
    }

    pub(crate) fn count(&mut self, k: u8, l: u8) -> Result<(), Refusal> {
        self.net.count(k, l)?;
        self.standing = None;
        Ok(())
    }

    pub(crate) fn load(&mut self, file: &[u8]) -> Result<(), Refusal> {
        self.net = judge(file)?;
        self.standing = None;
        Ok(())
    }

    pub(crate) fn clear(&mut self) {
        self.net = Net::new();
        self.standing = None;
    }

    // What a plan answers: the least rating on each scale, and the number of ideals. Of a larger sheet only that it has more ideals than operators.
    pub(crate) fn plan(&self, lent: &Lengths) -> Result<(Ratings, usize), Refusal> {
        if lent.ideals <= self.net.rows().len() {
            return Err(Refusal::TooManyIdeals);
        }
        let ideals = ideals(&self.net);
        if lent.ideals < ideals {
            return Err(Refusal::TooManyIdeals);
        }
        let cells = cells(&self.net, ideals);
        if lent.ratings < cells || lent.choices < cells {
            return Err(Refusal::TooFewCells);
        }
        let least = least(&self.net, self.limit).ok_or(Refusal::NoLawfulSplit)?;
        Ok((least, ideals))
    }

    // Sets up the split of a granted plan, and answers what it rates; none if these stages are no lawful split.
    pub(crate) fn settle(&mut self, parts: &[Part]) -> Option<Ratings> {
        let standing = Standing::new(&self.net, self.limit, parts)?;
        self.standing = Some(standing);
        Some(standing.rated)
    }

    // ---- the calls that only read

    fn standing(&self) -> Result<&Standing, Refusal> {
        self.standing.as_ref().ok_or(Refusal::NoSplit)
    }

    pub(crate) fn rating(&self) -> Result<Ratings, Refusal> {
        Ok(self.standing()?.rated)
    }

    pub(crate) fn stage(&self, i: usize) -> Result<(u8, u64, u32), Refusal> {
        let part = self.standing()?.parts().get(i).ok_or(Refusal::NoStage)?;
        Ok((part.kind, part.mask, size(part.mask)))
    }

    pub(crate) fn place(&self, v: usize) -> Result<usize, Refusal> {
        let parts = self.standing()?.parts();
        parts
            .iter()
            .position(|part| holds(part.mask, v))
            .ok_or(Refusal::NoOperator)
    }

    pub(crate) fn margin(&self, pick: u32) -> Result<i64, Refusal> {
        let rated = self.standing()?.rated;
        if pick > 1_000_000_000 {
            return Err(Refusal::AboveLimit);
        }
        Ok(i64::from(pick) - i64::from(rated.peak))
    }

    pub(crate) fn page(&self) -> Result<Buffer, Refusal> {
        Ok(self.standing()?.page())
    }
}

// Networks of up to six operators, drawn at random.
ghost use Rattle.std.specs.Prelude.{◌≡◌, ◌≤◌, length};

use super::randoms::Random;
use refusals::Refusal;
use sheet::{Operator, Sheet};

// The figures of an operator, the set that has it alone, and the set of those that it has an edge to.
#[derive(Clone, Copy)]
pub(crate) struct Row {
    pub(crate) acc: u8,
    pub(crate) cpu: u8,
    pub(crate) size: u8,
    pub(crate) link: u8,
    pub(crate) itself: u64,
    pub(crate) successors: u64,
}

#[derive(Clone, Copy)]
pub(crate) struct Draft {
    rows: [Row; 6],
    size: usize,
    pub(crate) k: u8,
    pub(crate) l: u8,
    ghost six: { length rows ≡ 6 },
    ghost few: { size ≤ 6 },
}

impl Row {
    pub(crate) fn is_in(&self, set: u64) -> bool {
        self.itself & set != 0
    }

    fn operator(&self) -> Operator {
        Operator {
            acc: u32::from(self.acc),
            cpu: u32::from(self.cpu),
            size: u32::from(self.size),
            link: u32::from(self.link),
        }
    }
}

// A row with figures so small that many splits rate alike, and edges to some of the set `later`.
fn draw_row(random: &mut Random, itself: u64, later: u64) -> Row {
    Row {
        acc: random.below(7),
        cpu: random.below(10),
        size: random.below(4),
        link: random.below(3),
        itself,
        successors: random.bits() & later,
    }
}

impl Draft {
    // Most have four operators or more, and half of the edges to later ones; one in six has no edge.
    pub(crate) fn draw(random: &mut Random) -> Draft {
        let size = random.below(7).max(random.below(7));
        let all = (1 << size) - 1;
        let kept = match random.below(6) {
            0 => 0,
            1 => random.bits(),
            _ => u64::MAX,
        };
        let rows = [(1, 62), (2, 60), (4, 56), (8, 48), (16, 32), (32, 0)].map(|(
            itself,
            later,
        )| draw_row(random, itself, later & all & kept));
        Draft {
            rows,
            size: usize::from(size),
            k: random.below(4),
            l: random.below(4),
        }
    }

    pub(crate) fn rows(&self) -> &[Row] {
        &self.rows[..self.size]
    }

    // The set of all operators.
    pub(crate) fn all(&self) -> u64 {
        self.rows().iter().fold(0, |set, row| set | row.itself)
    }

    pub(crate) fn sheet(&self) -> Result<Sheet, Refusal> {
        let mut sheet = Sheet::new();
        for row in self.rows() {
            sheet.add(row.operator())?;
        }
        for (from, row) in self.rows().iter().enumerate() {
            for (to, other) in self.rows().iter().enumerate() {
                if other.is_in(row.successors) {
                    sheet.join(from, to)?;
                }
            }
        }
        sheet.count(self.k, self.l)?;
        Ok(sheet)
    }
}

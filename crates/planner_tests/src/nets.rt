// A sheet as plain numbers, changed as the rules say.
ghost use Rattle.std.specs.Prelude.{◌≡◌, ◌≤◌, length};

use super::buffers::Buffer;
use refusals::Refusal;
use sheet::Operator;

#[derive(Clone, Copy, PartialEq, Eq, Debug)]
pub(crate) struct Row {
    pub(crate) acc: u32,
    pub(crate) cpu: u32,
    pub(crate) size: u32,
    pub(crate) link: u32,
}

// The rows of the operators, and of each from and to whether there is an edge.
#[derive(Clone, Copy)]
pub(crate) struct Net {
    rows: [Row; 64],
    edges: [[bool; 64]; 64],
    operators: usize,
    pub(crate) k: u8,
    pub(crate) l: u8,
    ghost all: { length rows ≡ 64 },
    ghost few: { operators ≤ 64 },
}

// Whether a mask holds an operator.
pub(crate) fn holds(mask: u64, v: usize) -> bool {
    v < 64 && mask >> v & 1 == 1
}

impl Row {
    fn is_within(&self) -> bool {
        let most = 1_000_000;
        self.acc <= most && self.cpu <= most && self.size <= most && self.link <= most
    }

    pub(crate) fn operator(&self) -> Operator {
        Operator {
            acc: self.acc,
            cpu: self.cpu,
            size: self.size,
            link: self.link,
        }
    }
}

impl Net {
    pub(crate) fn new() -> Net {
        let blank = Row {
            acc: 0,
            cpu: 0,
            size: 0,
            link: 0,
        };
        Net {
            rows: [blank; 64],
            edges: [[false; 64]; 64],
            operators: 0,
            k: 0,
            l: 0,
        }
    }

    pub(crate) fn rows(&self) -> &[Row] {
        &self.rows[..self.operators]
    }

    pub(crate) fn has_edge(&self, from: usize, to: usize) -> bool {
        from < 64 && to < 64 && self.edges[from][to]
    }

    // The mask of all operators.
    pub(crate) fn all(&self) -> u64 {
        let mut mask = 0;
        for v in 0..self.operators {
            mask |= 1 << v;
        }
        mask
    }

    pub(crate) fn add(&mut self, row: &Row) -> Result<usize, Refusal> {
        let v = self.operators;
        if v >= 64 {
            return Err(Refusal::SheetFull);
        }
        if !row.is_within() {
            return Err(Refusal::AboveLimit);
        }
        self.rows[v] = *row;
        self.operators = v + 1;
        Ok(v)
    }

    pub(crate) fn join(&mut self, from: usize, to: usize) -> Result<(), Refusal> {
        if from >= self.operators || to >= self.operators {
            return Err(Refusal::NoOperator);
        }
        if from >= to {
            return Err(Refusal::NotUpward);
        }
        if self.edges[from][to] {
            return Err(Refusal::EdgeExists);
        }
        self.edges[from][to] = true;
        Ok(())
    }

    pub(crate) fn retime(&mut self, v: usize, row: &Row) -> Result<(), Refusal> {
        if v >= self.operators {
            return Err(Refusal::NoOperator);
        }
        if !row.is_within() {
            return Err(Refusal::AboveLimit);
        }
        self.rows[v] = *row;
        Ok(())
    }

    pub(crate) fn count(&mut self, k: u8, l: u8) -> Result<(), Refusal> {
        if k > 8 || l > 8 {
            return Err(Refusal::CountAboveLimit);
        }
        self.k = k;
        self.l = l;
        Ok(())
    }

    // The bytes of the edges, by ascending from and then ascending to.
    fn pairs(&self) -> Buffer {
        let mut pairs = Buffer::new();
        for from in 0..64 {
            for to in 0..64 {
                if self.has_edge(from, to) {
                    pairs.push(from as u8);
                    pairs.push(to as u8);
                }
            }
        }
        pairs
    }

    // The sheet file.
    pub(crate) fn file(&self) -> Buffer {
        let pairs = self.pairs();
        let rows_length = 16 * self.operators as u32;
        let pairs_length = pairs.as_slice().len() as u32;
        let mut file = Buffer::new();
        file.push_all(b"WEFT");
        file.push(3);
        let mut offset: u32 = 20;
        for (section, length) in [(1, rows_length), (2, pairs_length), (3, 2)] {
            file.push(section);
            file.push_number(offset, 2);
            file.push_number(length, 2);
            offset = offset.saturating_add(length);
        }
        for row in self.rows() {
            for figure in [row.acc, row.cpu, row.size, row.link] {
                file.push_number(figure, 4);
            }
        }
        file.push_all(pairs.as_slice());
        file.push(self.k);
        file.push(self.l);
        file
    }
}

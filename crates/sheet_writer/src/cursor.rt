// A buffer that the parts of a sheet file are put into, one after another.
ghost use Rattle.std.specs.Prelude.{◌+◌, ◌<◌};
ghost use Rattle.std.specs.List.{flat_map};
ghost use Rattle.refusals.specs.Told.{section_number};
ghost use Rattle.sets.specs.Sets.{members};
ghost use Rattle.sheet.specs.Views.{net};
ghost use Rattle.sheet_layout.specs.Written.{entry_bytes, row_bytes, pair_bytes, rows_bytes, edges_bytes, head_bytes};
ghost use Rattle.sheet_writer.specs.Cursors.{Room, Puts};

use sheet::{Operator, Sheet};
use sheet_layout::{COUNTS_SIZE, ENTRIES, FIRST_BODY, LETTERS, Section};

// The buffer, and the place in it where the next bytes go.
#[derive(Drop)]
pub(crate) struct Cursor<'a> {
    pub(crate) buffer: &'a mut [u8],
    pub(crate) at: usize,
}

impl Cursor<'_> {
    // Puts `part` where there is room for it.
    pub(crate) fn put(&mut self, part: &[u8])
        requires { Room self.old part.now }
        ensures { Puts self.old part.now self.new }
    {
        self.at = byte_fields::put(self.buffer, self.at, part).unwrap();
    }

    // A contents entry.
    fn put_entry(&mut self, section: Section, offset: u16, size: u16)
        requires { Room self.old (entry_bytes (section_number section) offset size) }
        ensures { Puts self.old (entry_bytes (section_number section) offset size) self.new }
    {
        let [a, b] = offset.to_le_bytes();
        let [c, d] = size.to_le_bytes();
        self.put(&[section.number(), a, b, c, d]);
    }

    // The letters and the contents, with bodies of so many bytes for the operators and for the edges.
    pub(crate) fn put_head(&mut self, operators: u16, edges: u16)
        requires room { Room self.old (head_bytes operators edges) }
        requires within { 20 + operators + edges < 65536 }
        ensures { Puts self.old (head_bytes operators edges) self.new }
    {
        let first_body = FIRST_BODY as u16;
        self.put(&LETTERS);
        self.put(&[ENTRIES]);
        self.put_entry(Section::Operators, first_body, operators);
        self.put_entry(Section::Edges, first_body + operators, edges);
        self.put_entry(
            Section::Counts,
            first_body + operators + edges,
            COUNTS_SIZE as u16,
        );
    }

    // The figures of an operator.
    fn put_row(&mut self, row: &Operator)
        requires { Room self.old (row_bytes row.now) }
        ensures { Puts self.old (row_bytes row.now) self.new }
    {
        for figure in [row.acc, row.cpu, row.size, row.link] {
            self.put(&figure.to_le_bytes());
        }
    }

    // The rows of all operators.
    pub(crate) fn put_rows(&mut self, sheet: &Sheet)
        requires { Room self.old (rows_bytes (net sheet.now)) }
        ensures { Puts self.old (rows_bytes (net sheet.now)) self.new }
    {
        for node in sheet.nodes() {
            self.put_row(&node.figures);
        }
    }

    // The edges from `u` to each operator of a set, ascending.
    fn put_pairs(&mut self, u: u8, set: u64)
        requires { Room self.old (flat_map (pair_bytes u) (members set)) }
        ensures { Puts self.old (flat_map (pair_bytes u) (members set)) self.new }
    {
        for v in sets::members_of(set) {
            self.put(&[u, v as u8]);
        }
    }

    // The edges of the sheet, ascending by from and then by to.
    pub(crate) fn put_edges(&mut self, sheet: &Sheet)
        requires { Room self.old (edges_bytes (net sheet.now)) }
        ensures { Puts self.old (edges_bytes (net sheet.now)) self.new }
    {
        for (u, node) in sheet.nodes().iter().enumerate() {
            self.put_pairs(u as u8, node.successors);
        }
    }
}

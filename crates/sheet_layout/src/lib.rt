// The layout of sheet files: what reading and writing them share.
#![tactic(auto)]

ghost use Rattle.sheet_layout.specs.Laws.{LawsStand};

pub use refusals::Section;

// What a sheet file begins with, and how many contents entries it has.
pub const LETTERS: [u8; 4] = *b"WEFT";

pub const ENTRIES: u8 = 3;

// Where the first body lies.
pub const FIRST_BODY: usize = 20;

// The sizes of an entry in the bodies of the sections.
pub const OPERATOR_SIZE: usize = 16;

pub const EDGE_SIZE: usize = 2;

pub const COUNTS_SIZE: usize = 2;

// What is due of a contents entry: its section, the size of an entry of its body, how long the body may be, and whether it is the last.
// The last is told by a plain flag: no other field has its meaning from it, and an enum of two would only spell yes and no.
#[derive(Drop)]
pub struct Due {
    pub section: Section,
    pub unit: usize,
    pub least: usize,
    pub most: usize,
    pub last: bool,
}

// A file is accepted exactly if it is laid out by the rules, it then says one sheet, and every sheet has a file.
pub fn laws_stand()
    ensures { LawsStand }
{}

// The contents of a sheet file: where each of its bodies lies.
ghost use Rattle.std.specs.Prelude.{◌≡◌, ◌+◌, ◌*◌, ◌<◌, ◌≤◌, true, false, length, MatchOption};
ghost use Rattle.sheet_layout.specs.Contents.{start, head_right, section_of, offset_of, length_of, admits, entry_right};

use byte_fields::read;
use sheet_layout::{Due, ENTRIES, FIRST_BODY, LETTERS};

// A contents entry: a section, and where its body lies. The section is a byte as it was read, which may be the number of none.
#[derive(Clone, Copy)]
struct Entry {
    section: u8,
    offset: usize,
    length: usize,
}

const HEAD: usize = 5;

const ENTRY: usize = 5;

// Whether the file is long enough for its contents, begins with the letters and counts three contents entries.
pub(crate) fn is_sheet_file(file: &[u8]) -> bool
    ensures { result ≡ head_right file.now }
{
    // each of the four letters at its own place: a rule of the project, by which a reader of this line sees what is compared
    file.len() >= FIRST_BODY
        && file[0] == LETTERS[0]
        && file[1] == LETTERS[1]
        && file[2] == LETTERS[2]
        && file[3] == LETTERS[3]
        && file[4] == ENTRIES
}

impl Entry {
    // The contents entry with an index, if the file is long enough.
    fn fetch(file: &[u8], index: usize) -> Option<Entry>
        requires { index < 3 }
        ensures { MatchOption result (length file.now < 10 + 5 * index) (λ e. (e.section ≡ section_of file.now index) × (e.offset ≡ offset_of file.now index) × (e.length ≡ length_of file.now index) × (e.length < 65536)) }
    {
        let at = HEAD + ENTRY * index;
        let offset = read::<u16>(file, at + 1)?;
        let length = read::<u16>(file, at + 3)?;
        Some(Entry {
            section: file[at],
            offset: usize::from(offset),
            length: usize::from(length),
        })
    }

    // Whether the entry is as it is due, its body being due at `from` in a file of `size` bytes.
    fn is_due(&self, due: &Due, from: usize, size: usize) -> bool
        requires unit { 0 < due.now.unit }
        requires within { (self.now.length < 65536) × (from < 65536) }
        ensures { result ≡ admits due.now self.now.section self.now.offset self.now.length from size }
    {
        let end = from + self.length;
        self.section == due.section.number()
            && self.offset == from
            && self.length % due.unit == 0
            && due.least <= self.length
            && self.length <= due.most
            && (if due.last { end == size } else { end <= size })
    }
}

// Where the body of the contents entry `index` ends, if the entry is as it is due. The body is due at `from`.
pub(crate) fn body_end(file: &[u8], index: usize, from: usize, due: &Due) -> Option<usize>
    requires there { (20 ≤ length file.now) × (index < 3) }
    requires place { (from ≡ start file.now index) × (from < 65536) }
    requires unit { 0 < due.now.unit }
    ensures { MatchOption result (entry_right file.now index due.now ≡ false) (λ end. (entry_right file.now index due.now ≡ true) × (end ≡ from + length_of file.now index) × (end ≤ length file.now) × (end ≤ from + due.now.most)) }
{
    // by `let .. else`, a rule of the project for contents entries: where one is not there, or is wrong, no body is opened
    let Some(entry) = Entry::fetch(file, index) else {
        return None;
    };
    entry
        .is_due(due, from, file.len())
        .then_some(from + entry.length)
}

// A reader over a borrowed sheet file. Its bodies are slices of the file, handed out with their places.
ghost use Rattle.std.specs.Prelude.{◌≡◌, IfOk};
ghost use Rattle.refusals.specs.Told.{outcome};
ghost use Rattle.sheet_layout.specs.Contents.{contents_refusal};
ghost use Rattle.sheet_file.specs.Opened.{Opened};

use super::contents::{body_end, is_sheet_file};
use refusals::Refusal;
use sheet_layout::{COUNTS_SIZE, Due, EDGE_SIZE, FIRST_BODY, OPERATOR_SIZE, Section};

// A part of a file, and where in the file it begins.
#[derive(Clone, Copy)]
pub struct Part<'a> {
    pub place: usize,
    pub bytes: &'a [u8],
}

#[derive(Clone, Copy)]
pub struct Reader<'a> {
    file: &'a [u8],
    operators: Part<'a>,
    edges: Part<'a>,
    counts: Part<'a>,
}

const OPERATORS_DUE: Due = Due {
    section: Section::Operators,
    unit: OPERATOR_SIZE,
    least: 0,
    most: 1024,
    last: false,
};

const EDGES_DUE: Due = Due {
    section: Section::Edges,
    unit: EDGE_SIZE,
    least: 0,
    most: 4032,
    last: false,
};

const COUNTS_DUE: Due = Due {
    section: Section::Counts,
    unit: COUNTS_SIZE,
    least: COUNTS_SIZE,
    most: COUNTS_SIZE,
    last: true,
};

impl<'a> Reader<'a> {
    // Judges the letters and the contents. No body is opened before all of the contents are right.
    // The three entries are fetched one by one, since each body begins where the one before it ends, and each has its own refusal.
    pub fn open(file: &'a [u8]) -> Result<Reader<'a>, Refusal>
        ensures refuses { outcome result ≡ contents_refusal file.now }
        ensures opens { IfOk result (λ x. Opened file.now x) }
    {
        if !is_sheet_file(file) {
            return Err(Refusal::NotASheetFile);
        }
        let Some(edges_at) = body_end(file, 0, FIRST_BODY, &OPERATORS_DUE) else {
            return Err(Refusal::ContentsEntry(0));
        };
        let Some(counts_at) = body_end(file, 1, edges_at, &EDGES_DUE) else {
            return Err(Refusal::ContentsEntry(1));
        };
        let Some(end) = body_end(file, 2, counts_at, &COUNTS_DUE) else {
            return Err(Refusal::ContentsEntry(2));
        };
        Ok(Reader {
            file,
            operators: Part {
                place: FIRST_BODY,
                bytes: &file[FIRST_BODY..edges_at],
            },
            edges: Part {
                place: edges_at,
                bytes: &file[edges_at..counts_at],
            },
            counts: Part {
                place: counts_at,
                bytes: &file[counts_at..end],
            },
        })
    }

    // The reader hands its parts on by a method each, so that a caller names what it takes.

    // The whole file.
    pub fn file(&self) -> &'a [u8]
        ensures { result.now ≡ self.now.file.now }
    {
        self.file
    }

    // The rows of the operators.
    pub fn operators(&self) -> Part<'a>
        ensures { (result.place ≡ self.now.operators.place) × (result.bytes.now ≡ self.now.operators.bytes.now) }
    {
        self.operators
    }

    // The edges.
    pub fn edges(&self) -> Part<'a>
        ensures { (result.place ≡ self.now.edges.place) × (result.bytes.now ≡ self.now.edges.bytes.now) }
    {
        self.edges
    }

    // The counts of devices.
    pub fn counts(&self) -> Part<'a>
        ensures { (result.place ≡ self.now.counts.place) × (result.bytes.now ≡ self.now.counts.bytes.now) }
    {
        self.counts
    }
}

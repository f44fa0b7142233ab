// Writing a sheet as a sheet file: the head, the rows of the operators, the edges and the counts.
#![tactic(auto)]

ghost use Rattle.std.specs.Prelude.{◌≡◌, length, MatchResult};
ghost use Rattle.sheet.specs.Views.{net};
ghost use Rattle.sheet_layout.specs.Written.{file_of};
ghost use Rattle.sheet_writer.specs.Writes.{Writes, Keeps};

mod cursor;

use cursor::Cursor;
use refusals::Refusal;
use sheet::Sheet;
use sheet_layout::{COUNTS_SIZE, EDGE_SIZE, FIRST_BODY, OPERATOR_SIZE};

// How long the file is that `write` makes of a sheet.
#[tactic(auto, using(crate::proofs::Puts::edges_few))]
pub fn file_length(sheet: &Sheet) -> usize
    ensures { result ≡ length (file_of (net sheet.now)) }
{
    FIRST_BODY + OPERATOR_SIZE * sheet.operators() + EDGE_SIZE * sheet.edges() + COUNTS_SIZE
}

// Writes the sheet's file to the front of the buffer and answers its length, or leaves the buffer as it is where it is too short.
#[tactic(auto, using(crate::proofs::Puts::edges_few))]
pub fn write(sheet: &Sheet, buffer: &mut [u8]) -> Result<usize, Refusal>
    ensures { MatchResult result (Writes (net sheet.now) buffer.old buffer.new) (Keeps (net sheet.now) buffer.old buffer.new) }
{
    if buffer.len() < file_length(sheet) {
        return Err(Refusal::BufferTooShort);
    }
    let operators = (OPERATOR_SIZE * sheet.operators()) as u16;
    let edges = (EDGE_SIZE * sheet.edges()) as u16;
    let counts = sheet.counts();
    let mut cursor = Cursor { buffer, at: 0 };
    cursor.put_head(operators, edges);
    cursor.put_rows(sheet);
    cursor.put_edges(sheet);
    cursor.put(&[counts.k, counts.l]);
    Ok(cursor.at)
}

ghost use Rattle.std.specs.Prelude.{◌≡◌, Err, MatchResult};
ghost use Rattle.sheet_text.specs.Reading.{sheet_of, told_reading};
ghost use Rattle.text_files.specs.Makes.{most_file, Makes, Refuses};

use sheet_text::{BadLine, read};

// The most bytes of a sheet file.
pub const MOST_FILE: usize = 5_078;

// Puts the file of the sheet that a text says at the front of the buffer and answers its length, or leaves the buffer as it is
// where a line of the text is bad.
pub fn make_file(text: &[u8], buffer: &mut [u8; MOST_FILE]) -> Result<usize, BadLine>
    ensures makes { MatchResult result (Makes text.now buffer.old buffer.new) (Refuses text.now buffer.old buffer.new) }
    ensures most { «MOST_FILE» ≡ most_file }
{
    let sheet = read(text)?;
    // the buffer is long enough for every sheet
    Ok(sheet_file::write(&sheet, buffer).unwrap())
}

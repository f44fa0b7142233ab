ghost use Rattle.std.specs.Prelude.{IfOk, string_bytes};
ghost use Rattle.text_files.specs.Describes.{Describes};

use sheet_text::{Cause, text};
use std::alloc::{AllocError, Global};

// The text of the sheet of a file, or the line of what is refused.
pub fn describe_file(heap: Global, file: &[u8]) -> Result<String, AllocError>
    ensures { IfOk result (λ t. Describes file.now (string_bytes t)) }
{
    match sheet_file::load(file) {
        Ok(sheet) => text(heap, &sheet),
        Err(refusal) => format!(in heap; "{}\n", Cause::Refused(refusal)),
    }
}

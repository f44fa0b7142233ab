// The report on a sheet file.
ghost use Rattle.std.specs.Prelude.{◌≡◌, IfOk, string_bytes};
ghost use Rattle.refusals.specs.Told.{told};
ghost use Rattle.sheet_report.specs.Report.{refused_line, Reported};
ghost use Rattle.sheet_report.specs.Accepted.{Accepted};

use crate::descriptions::describe;
use device::Accelerator;
use refusals::Refusal;
use sheet::Sheet;
use std::alloc::{AllocError, Global};

// The report on what is refused.
fn refuse(heap: Global, refusal: Refusal) -> Result<String, AllocError>
    ensures { IfOk result (λ t. string_bytes t ≡ refused_line (told refusal)) }
{
    format!(in heap; "refused {refusal}\n")
}

// An accelerator with the limit and the sheet of the file, or which of them is refused first.
fn accept(file: &[u8], limit: u32) -> Result<(Accelerator, Sheet), Refusal>
    ensures { Accepted limit file.now result }
{
    let accelerator = Accelerator::new(limit)?;
    let sheet = sheet_file::load(file)?;
    Ok((accelerator, sheet))
}

// The report on a sheet file: what it says, and what an accelerator with a limit and a processor answer for it, or why the
// limit or the file is refused.
#[tactic(auto, using(crate::proofs::Told::reported_sheet))]
pub fn report(heap: Global, file: &[u8], limit: u32) -> Result<String, AllocError>
    ensures { IfOk result (λ t. Reported limit file.now (string_bytes t)) }
{
    match accept(file, limit) {
        Ok((accelerator, sheet)) => describe(heap, &sheet, &accelerator),
        Err(refusal) => refuse(heap, refusal),
    }
}

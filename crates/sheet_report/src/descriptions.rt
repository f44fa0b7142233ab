// The report on a sheet.
ghost use Rattle.std.specs.Prelude.{◌≡◌, Some, IfOk, string_bytes};
ghost use Rattle.sheet.specs.Views.{net};
ghost use Rattle.sheet_report.specs.Plans.{PlansLeast};
ghost use Rattle.sheet_report.specs.Report.{sheet_lines, described};

use crate::networks::NetworkLines;
use crate::plans::plan;
use crate::rows::RowLines;
use crate::summaries::Summary;
use device::{Accelerator, Processor};
use scale::{Line, Pair, Peak};
use sheet::Sheet;
use split::Problem;
use std::alloc::{AllocError, Global};
use std::fmt;

// What a sheet says, and its network as one stage.
#[derive(Clone, Copy)]
struct Description<'a> {
    sheet: &'a Sheet,
    accelerator: &'a Accelerator,
}

impl fmt::Display for Description<'_> {
    ghost output = { λ report. Some (sheet_lines report.accelerator.now.limit (net report.sheet.now)) };

    fn fmt<W: fmt::Write>(&self, f: &mut fmt::Formatter<W>) -> fmt::Result {
        let Description { sheet, accelerator } = *self;
        let summary = Summary(sheet);
        let rows = RowLines(sheet);
        let network = NetworkLines { sheet, accelerator };
        write!(f, "{summary}{rows}{network}")
    }
}

// The report on a sheet.
pub fn describe(
    heap: Global,
    sheet: &Sheet,
    accelerator: &Accelerator,
) -> Result<String, AllocError>
    ensures text { IfOk result (λ t. string_bytes t ≡ described accelerator.now.limit (net sheet.now)) }
    ensures means { PlansLeast accelerator.now.limit (net sheet.now) }
{
    let problem = &Problem {
        sheet,
        first: accelerator,
        second: &Processor,
    };
    // for their contracts: what is told of each scale is a least split
    recurrence::splits_stand(problem, &Peak);
    recurrence::splits_stand(problem, &Line);
    recurrence::splits_stand(problem, &Pair);
    let plan = plan(heap, problem)?;
    format!(in heap; "{}{plan}", Description { sheet, accelerator })
}

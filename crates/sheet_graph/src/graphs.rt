// The graph of a sheet, and of a sheet file.
ghost use Rattle.std.specs.Prelude.{◌≡◌, List, [], IfOk, string_bytes};
ghost use Rattle.refusals.specs.Told.{told};
ghost use Rattle.sheet.specs.Views.{net};
ghost use Rattle.split.specs.declared.stages.Stage.{Stage};
ghost use Rattle.sheet_graph.specs.Graphs.{drawn, graph_of, DrawnLeast, Draws};

use crate::clusters::Clusters;
use crate::edges::Arrows;
use crate::nodes::NodeLines;
use cells::Choice;
use device::{Accelerator, Processor};
use refusals::Refusal;
use scale::Peak;
use sheet::Sheet;
use sheet_text::Cause;
use split::{Problem, Stage};
use std::alloc::{AllocError, Global};

const LIMIT: u32 = 1_000_000;

const IDEALS: usize = 512;

const CELLS: usize = 4_096;

// The graph of a sheet with these stages.
fn draw_stages(heap: Global, sheet: &Sheet, stages: &[Stage]) -> Result<String, AllocError>
    ensures { IfOk result (λ t. string_bytes t ≡ drawn (net sheet.now) [] stages.now) }
{
    let clusters = Clusters { sheet, stages };
    let arrows = Arrows(sheet);
    format!(in heap; "digraph sheet {{\n{clusters}{arrows}}}\n")
}

// The graph of a sheet of which no split is found.
#[tactic(auto, using(crate::proofs::Drawing::drawn_refused))]
fn draw_refused(heap: Global, sheet: &Sheet, refusal: Refusal) -> Result<String, AllocError>
    ensures { IfOk result (λ t. (ss : List Stage) → string_bytes t ≡ drawn (net sheet.now) (told refusal) ss) }
{
    let cause = Cause::Refused(refusal);
    let nodes = NodeLines(sheet);
    let arrows = Arrows(sheet);
    format!(in heap; "digraph sheet {{\nlabel=\"{cause}\";\n{nodes}{arrows}}}\n")
}

// The graph of a sheet: with the stages of a least split on peak, or with what is refused in place of them.
pub fn draw(heap: Global, sheet: &Sheet) -> Result<String, AllocError>
    ensures graph { IfOk result (λ t. string_bytes t ≡ graph_of (net sheet.now)) }
    ensures least { DrawnLeast (net sheet.now) }
{
    let problem = Problem {
        sheet,
        first: &Accelerator::new(LIMIT).unwrap(),
        second: &Processor,
    };
    let found = best_split::find(
        &problem,
        &Peak,
        &mut [0; IDEALS],
        &mut [0; CELLS],
        &mut [Choice::NONE; CELLS],
    );
    match found {
        Ok(found) => draw_stages(heap, sheet, found.split.stages()),
        Err(refusal) => draw_refused(heap, sheet, refusal),
    }
}

// The graph of the sheet of a file, or the line of what is refused.
pub fn draw_file(heap: Global, file: &[u8]) -> Result<String, AllocError>
    ensures { IfOk result (λ t. Draws file.now (string_bytes t)) }
{
    match sheet_file::load(file) {
        Ok(sheet) => draw(heap, &sheet),
        Err(refusal) => format!(in heap; "{}\n", Cause::Refused(refusal)),
    }
}

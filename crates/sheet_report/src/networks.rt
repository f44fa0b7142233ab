// The lines of all operators as one stage.
ghost use Rattle.std.specs.Prelude.{Some};
ghost use Rattle.sheet.specs.Views.{net, sums};
ghost use Rattle.sheet_report.specs.Report.{stage_line, network_lines};

use crate::answers::LoadLine;
use device::{Accelerator, Processor};
use sheet::{Sheet, StageFigures};
use std::fmt;

// The line of a stage's figures.
#[derive(Clone, Copy)]
struct StageLine<'a>(&'a StageFigures);

impl fmt::Display for StageLine<'_> {
    ghost output = { λ line. Some (stage_line (sums line.0.now)) };

    fn fmt<W: fmt::Write>(&self, f: &mut fmt::Formatter<W>) -> fmt::Result {
        let stage = self.0;
        writeln!(
            f,
            "network: acc {} cpu {} size {} in {} out {}",
            stage.acc, stage.cpu, stage.size, stage.incoming, stage.outgoing
        )
    }
}

// The figures of all operators as one stage, and what an accelerator and a processor answer for it.
#[derive(Clone, Copy)]
pub(crate) struct NetworkLines<'a> {
    pub(crate) sheet: &'a Sheet,
    pub(crate) accelerator: &'a Accelerator,
}

impl fmt::Display for NetworkLines<'_> {
    ghost output = { λ lines. Some (network_lines lines.accelerator.now.limit (net lines.sheet.now)) };

    fn fmt<W: fmt::Write>(&self, f: &mut fmt::Formatter<W>) -> fmt::Result {
        let stage = &self.sheet.figures(self.sheet.all());
        let limit = self.accelerator.limit();
        let accelerated = LoadLine {
            kind: self.accelerator,
            stage,
        };
        let processed = LoadLine {
            kind: &Processor,
            stage,
        };
        let figures = StageLine(stage);
        write!(
            f,
            "{figures}accelerator {limit}: {accelerated}processor: {processed}"
        )
    }
}

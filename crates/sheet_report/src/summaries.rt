// The lines before the operators.
ghost use Rattle.std.specs.Prelude.{Some};
ghost use Rattle.sheet.specs.Views.{net};
ghost use Rattle.sheet_report.specs.Report.{summary};

use sheet::{Counts, Sheet};
use std::fmt;

// How many operators and edges a sheet has, and how many devices of each kind.
#[derive(Clone, Copy)]
pub(crate) struct Summary<'a>(pub(crate) &'a Sheet);

impl fmt::Display for Summary<'_> {
    ghost output = { λ lines. Some (summary (net lines.0.now)) };

    fn fmt<W: fmt::Write>(&self, f: &mut fmt::Formatter<W>) -> fmt::Result {
        let operators = self.0.operators();
        let edges = self.0.edges();
        let Counts { k, l } = self.0.counts();
        write!(f, "operators {operators}\nedges {edges}\ncounts {k} {l}\n")
    }
}

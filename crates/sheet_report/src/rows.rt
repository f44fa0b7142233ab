// The lines of the operators.
ghost use Rattle.std.specs.Prelude.{◌≡◌, Some};
ghost use Rattle.sheet.specs.Nodes.{figures_in, successors_in};
ghost use Rattle.sheet.specs.Nets.{row, after};
ghost use Rattle.sheet.specs.Views.{net};
ghost use Rattle.sheet_report.specs.Report.{row_line, row_lines};

use crate::listed::Listed;
use sheet::{Node, Sheet};
use std::fmt;

// The line of an operator of a sheet, which `node` is.
#[derive(Clone, Copy)]
struct RowLine<'a> {
    sheet: &'a Sheet,
    operator: usize,
    node: &'a Node,
    ghost its_figures: { figures_in node.now ≡ row (net sheet.now) operator },
    ghost its_successors: { successors_in node.now ≡ after (net sheet.now) operator },
}

impl fmt::Display for RowLine<'_> {
    ghost output = { λ line. Some (row_line (net line.sheet.now) line.operator) };

    fn fmt<W: fmt::Write>(&self, f: &mut fmt::Formatter<W>) -> fmt::Result {
        let operator = self.operator;
        let figures = &self.node.figures;
        let predecessors = Listed(self.sheet.predecessors(operator));
        let successors = Listed(self.node.successors);
        write!(
            f,
            "{operator}: acc {} cpu {} size {} link {}",
            figures.acc, figures.cpu, figures.size, figures.link
        )?;
        writeln!(f, ", predecessors{predecessors}, successors{successors}")
    }
}

// The lines of all operators of a sheet.
#[derive(Clone, Copy)]
pub(crate) struct RowLines<'a>(pub(crate) &'a Sheet);

impl fmt::Display for RowLines<'_> {
    ghost output = { λ lines. Some (row_lines (net lines.0.now)) };

    fn fmt<W: fmt::Write>(&self, f: &mut fmt::Formatter<W>) -> fmt::Result {
        let sheet = self.0;
        for (operator, node) in sheet.nodes().iter().enumerate() {
            let line = RowLine {
                sheet,
                operator,
                node,
            };
            write!(f, "{line}")?;
        }
        Ok(())
    }
}

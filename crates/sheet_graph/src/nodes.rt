// The operators as nodes.
ghost use Rattle.std.specs.Prelude.{◌≡◌, Some};
ghost use Rattle.sheet.specs.Nets.{row};
ghost use Rattle.sheet.specs.Views.{net};
ghost use Rattle.sheet_graph.specs.Graphs.{node_line, node_lines};

use sheet::{Operator, Sheet};
use std::fmt;

// The figures of an operator; those of none where there is none.
fn figures(sheet: &Sheet, operator: usize) -> Operator
    ensures { result ≡ row (net sheet.now) operator }
{
    match sheet.row(operator) {
        Some(row) => Operator {
            acc: row.acc,
            cpu: row.cpu,
            size: row.size,
            link: row.link,
        },
        None => Operator::BLANK,
    }
}

// The line of an operator.
#[derive(Clone, Copy)]
pub(crate) struct NodeLine<'a> {
    pub(crate) sheet: &'a Sheet,
    pub(crate) operator: usize,
}

impl fmt::Display for NodeLine<'_> {
    ghost output = { λ line. Some (node_line (net line.sheet.now) line.operator) };

    fn fmt<W: fmt::Write>(&self, f: &mut fmt::Formatter<W>) -> fmt::Result {
        let operator = self.operator;
        let figures = figures(self.sheet, operator);
        write!(f, "{operator} [label=\"{operator}\\n")?;
        write!(f, "acc {} cpu {}\\n", figures.acc, figures.cpu)?;
        writeln!(f, "size {} link {}\"];", figures.size, figures.link)
    }
}

// The lines of all operators of a sheet.
#[derive(Clone, Copy)]
pub(crate) struct NodeLines<'a>(pub(crate) &'a Sheet);

impl fmt::Display for NodeLines<'_> {
    ghost output = { λ lines. Some (node_lines (net lines.0.now)) };

    fn fmt<W: fmt::Write>(&self, f: &mut fmt::Formatter<W>) -> fmt::Result {
        let sheet = self.0;
        for operator in 0..sheet.operators() {
            let line = NodeLine { sheet, operator };
            write!(f, "{line}")?;
        }
        Ok(())
    }
}

// The text of a sheet: its operators in order, its edges ascending, its counts.
ghost use Rattle.std.specs.Prelude.{◌≡◌, map, Some, Ok, IfOk, string_bytes};
ghost use Rattle.std.specs.List.{flat_map};
ghost use Rattle.sheet.specs.Nodes.{figures_in};
ghost use Rattle.sheet.specs.Views.{net};
ghost use Rattle.sheet_text.specs.Texts.{operator_line, edge_line, counts_line, edge_lines_from, edge_lines, text_of};
ghost use Rattle.sheet_text.specs.Reading.{sheet_of};

use sheet::{Counts, Node, Operator, Sheet};
use std::alloc::{AllocError, Global};
use std::fmt;

// The line of an operator.
#[derive(Clone, Copy)]
struct OperatorLine<'a>(&'a Operator);

impl fmt::Display for OperatorLine<'_> {
    ghost output = { λ line. Some (operator_line line.0.now) };

    fn fmt<W: fmt::Write>(&self, f: &mut fmt::Formatter<W>) -> fmt::Result {
        let figures = self.0;
        writeln!(
            f,
            "op {} {} {} {}",
            figures.acc, figures.cpu, figures.size, figures.link
        )
    }
}

// The lines of the operators of a sheet.
#[derive(Clone, Copy)]
struct OperatorLines<'a>(&'a [Node]);

impl fmt::Display for OperatorLines<'_> {
    ghost output = { λ lines. Some (flat_map operator_line (map figures_in lines.0.now)) };

    fn fmt<W: fmt::Write>(&self, f: &mut fmt::Formatter<W>) -> fmt::Result {
        for node in self.0 {
            let line = OperatorLine(&node.figures);
            write!(f, "{line}")?;
        }
        Ok(())
    }
}

// The lines of the edges from one operator to each of a set.
#[derive(Clone, Copy)]
struct EdgeLines {
    from: usize,
    to: u64,
}

impl fmt::Display for EdgeLines {
    ghost output = { λ lines. Some (edge_lines_from lines.from lines.to) };

    fn fmt<W: fmt::Write>(&self, f: &mut fmt::Formatter<W>) -> fmt::Result {
        let from = self.from;
        for to in sets::members_of(self.to) {
            writeln!(f, "edge {from} {to}")?;
        }
        Ok(())
    }
}

// The lines of all edges of a sheet.
#[derive(Clone, Copy)]
struct AllEdgeLines<'a>(&'a Sheet);

impl fmt::Display for AllEdgeLines<'_> {
    ghost output = { λ lines. Some (edge_lines (net lines.0.now)) };

    fn fmt<W: fmt::Write>(&self, f: &mut fmt::Formatter<W>) -> fmt::Result {
        for from in 0..self.0.operators() {
            let to = self.0.successors(from);
            let lines = EdgeLines { from, to };
            write!(f, "{lines}")?;
        }
        Ok(())
    }
}

// The text of a sheet.
#[derive(Clone, Copy)]
struct SheetText<'a>(&'a Sheet);

impl fmt::Display for SheetText<'_> {
    ghost output = { λ text. Some (text_of (net text.0.now)) };

    fn fmt<W: fmt::Write>(&self, f: &mut fmt::Formatter<W>) -> fmt::Result {
        let operators = OperatorLines(self.0.nodes());
        let edges = AllEdgeLines(self.0);
        let Counts { k, l } = self.0.counts();
        write!(f, "{operators}{edges}count {k} {l}\n")
    }
}

// The text of a sheet, which says that sheet.
pub fn text(heap: Global, sheet: &Sheet) -> Result<String, AllocError>
    ensures text { IfOk result (λ t. string_bytes t ≡ text_of (net sheet.now)) }
    ensures reads_back { sheet_of (text_of (net sheet.now)) ≡ Ok (net sheet.now) }
{
    let text = SheetText(sheet);
    format!(in heap; "{text}")
}

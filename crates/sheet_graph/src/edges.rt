// The edges as arrows.
ghost use Rattle.std.specs.Prelude.{Some};
ghost use Rattle.sheet.specs.Views.{net};
ghost use Rattle.sheet_graph.specs.Graphs.{arrows_from, arrows};

use sheet::Sheet;
use std::fmt;

// The lines of the edges from one operator to each of a set.
#[derive(Clone, Copy)]
struct ArrowsFrom {
    from: usize,
    to: u64,
}

impl fmt::Display for ArrowsFrom {
    ghost output = { λ lines. Some (arrows_from lines.from lines.to) };

    fn fmt<W: fmt::Write>(&self, f: &mut fmt::Formatter<W>) -> fmt::Result {
        let from = self.from;
        for to in sets::members_of(self.to) {
            writeln!(f, "{from} -> {to};")?;
        }
        Ok(())
    }
}

// The lines of all edges of a sheet.
#[derive(Clone, Copy)]
pub(crate) struct Arrows<'a>(pub(crate) &'a Sheet);

impl fmt::Display for Arrows<'_> {
    ghost output = { λ lines. Some (arrows (net lines.0.now)) };

    fn fmt<W: fmt::Write>(&self, f: &mut fmt::Formatter<W>) -> fmt::Result {
        for from in 0..self.0.operators() {
            let to = self.0.successors(from);
            let lines = ArrowsFrom { from, to };
            write!(f, "{lines}")?;
        }
        Ok(())
    }
}

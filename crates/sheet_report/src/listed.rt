// The operators of a set in a line.
ghost use Rattle.std.specs.Prelude.{Some};
ghost use Rattle.sets.specs.Sets.{members};
ghost use Rattle.sheet_report.specs.Listed.{listed};

use std::fmt;

// A space and the number for each operator of a set, ascending, or that there is none.
#[derive(Clone, Copy)]
pub(crate) struct Listed(pub(crate) u64);

impl fmt::Display for Listed {
    ghost output = { λ set. Some (listed (members set.0)) };

    fn fmt<W: fmt::Write>(&self, f: &mut fmt::Formatter<W>) -> fmt::Result {
        if sets::size(self.0) == 0 {
            return write!(f, " none");
        }
        for operator in sets::members_of(self.0) {
            write!(f, " {operator}")?;
        }
        Ok(())
    }
}

// The stages of a split in a line.
ghost use Rattle.std.specs.Prelude.{Some};
ghost use Rattle.sheet_report.specs.Plans.{stage_text, stages_text};

use crate::listed::Listed;
use device::WhichKind;
use split::Stage;
use std::fmt;

// The letter of a stage's kind, and its operators.
#[derive(Clone, Copy)]
struct StageText<'a>(&'a Stage);

impl fmt::Display for StageText<'_> {
    ghost output = { λ text. Some (stage_text text.0.now) };

    fn fmt<W: fmt::Write>(&self, f: &mut fmt::Formatter<W>) -> fmt::Result {
        let letter = match WhichKind::try_from(self.0.kind) {
            Ok(WhichKind::First) => "A",
            _ => "B",
        };
        let operators = Listed(self.0.mask);
        write!(f, "{letter}{operators}")
    }
}

// The stages of a split, first to last, or that there are none.
#[derive(Clone, Copy)]
pub(crate) struct StageList<'a>(pub(crate) &'a [Stage]);

impl fmt::Display for StageList<'_> {
    ghost output = { λ list. Some (stages_text list.0.now) };

    fn fmt<W: fmt::Write>(&self, f: &mut fmt::Formatter<W>) -> fmt::Result {
        let Some((first, others)) = self.0.split_first() else {
            return write!(f, "no stages");
        };
        let first = StageText(first);
        write!(f, "{first}")?;
        for stage in others {
            let next = StageText(stage);
            write!(f, "; {next}")?;
        }
        Ok(())
    }
}

// What a device kind answers for a stage.
ghost use Rattle.std.specs.Prelude.{Some};
ghost use Rattle.sheet.specs.Views.{sums};
ghost use Rattle.device.specs.Views.{load_of};
ghost use Rattle.sheet_report.specs.Report.{ratings, load_line};

use device::{Kind, Load};
use scale::{Line, Pair, Peak, Scale};
use sheet::StageFigures;
use std::fmt;

// What a load rates on each scale.
#[derive(Clone, Copy)]
struct Ratings<'a>(&'a Load);

impl fmt::Display for Ratings<'_> {
    ghost output = { λ end. Some (ratings (load_of end.0.now)) };

    fn fmt<W: fmt::Write>(&self, f: &mut fmt::Formatter<W>) -> fmt::Result {
        let load = self.0;
        let peak = Peak.join(Peak.start(), load);
        let line = Line.join(Line.start(), load);
        let pair = Pair.join(Pair.start(), load);
        writeln!(f, ", peak {peak} line {line} pair {pair}")
    }
}

// What a kind answers for a stage: a load and its ratings, or that the stage does not fit.
#[derive(Drop)]
pub(crate) struct LoadLine<'a, K> {
    pub(crate) kind: &'a K,
    pub(crate) stage: &'a StageFigures,
}

impl<K: Kind> fmt::Display for LoadLine<'_, K> {
    ghost output = { λ line. Some (load_line (K.meaning line.kind.now (sums line.stage.now))) };

    fn fmt<W: fmt::Write>(&self, f: &mut fmt::Formatter<W>) -> fmt::Result {
        let Some(load) = self.kind.load(self.stage) else {
            return writeln!(f, "does not fit");
        };
        let ratings = Ratings(&load);
        write!(f, "{load}{ratings}")
    }
}

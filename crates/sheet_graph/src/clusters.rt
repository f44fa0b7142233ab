// The stages as clusters.
ghost use Rattle.std.specs.Prelude.{◌≡◌, Some};
ghost use Rattle.std.specs.List.{flat_map};
ghost use Rattle.sets.specs.Sets.{members};
ghost use Rattle.sheet.specs.Views.{net};
ghost use Rattle.pages.specs.Pages.{letter};
ghost use Rattle.sheet_graph.specs.Graphs.{node_line, cluster, clusters};

use crate::nodes::NodeLine;
use device::WhichKind;
use sheet::Sheet;
use split::Stage;
use std::fmt;

// The lines of the operators of a set.
#[derive(Clone, Copy)]
struct Members<'a> {
    sheet: &'a Sheet,
    mask: u64,
}

impl fmt::Display for Members<'_> {
    ghost output = { λ nodes. Some (flat_map (node_line (net nodes.sheet.now)) (members nodes.mask)) };

    fn fmt<W: fmt::Write>(&self, f: &mut fmt::Formatter<W>) -> fmt::Result {
        let sheet = self.sheet;
        for operator in sets::members_of(self.mask) {
            let line = NodeLine { sheet, operator };
            write!(f, "{line}")?;
        }
        Ok(())
    }
}

// The letter of a stage.
fn letter(stage: &Stage) -> &'static str
    ensures { result.now ≡ letter stage.now }
{
    match WhichKind::try_from(stage.kind) {
        Ok(WhichKind::First) => "A",
        _ => "B",
    }
}

// The lines of a stage, with its number.
#[derive(Clone, Copy)]
struct Cluster<'a> {
    sheet: &'a Sheet,
    number: usize,
    stage: &'a Stage,
}

impl fmt::Display for Cluster<'_> {
    ghost output = { λ it. Some (cluster (net it.sheet.now) it.number it.stage.now) };

    fn fmt<W: fmt::Write>(&self, f: &mut fmt::Formatter<W>) -> fmt::Result {
        let Cluster {
            sheet,
            number,
            stage,
        } = *self;
        let letter = letter(stage);
        let nodes = Members {
            sheet,
            mask: stage.mask,
        };
        write!(
            f,
            "subgraph cluster_{number} {{\nlabel=\"stage {number} {letter}\";\n{nodes}}}\n"
        )
    }
}

// The lines of all stages, first to last.
#[derive(Clone, Copy)]
pub(crate) struct Clusters<'a> {
    pub(crate) sheet: &'a Sheet,
    pub(crate) stages: &'a [Stage],
}

impl fmt::Display for Clusters<'_> {
    ghost output = { λ all. Some (clusters (net all.sheet.now) all.stages.now) };

    fn fmt<W: fmt::Write>(&self, f: &mut fmt::Formatter<W>) -> fmt::Result {
        for (number, stage) in self.stages.iter().enumerate() {
            let cluster = Cluster {
                sheet: self.sheet,
                number,
                stage,
            };
            write!(f, "{cluster}")?;
        }
        Ok(())
    }
}

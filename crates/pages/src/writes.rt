ghost use Rattle.std.specs.Prelude.{◌≡◌, ◌≤◌, length, IfOk, OnErr};
ghost use Rattle.refusals.specs.Told.{outcome};
ghost use Rattle.split.specs.Problems.{net_of, kinds_of};
ghost use Rattle.best_split.specs.Views.{stages_of};
ghost use Rattle.pages.specs.Pages.{page_of, most_page, page_refusal, HasPage};

use crate::lengths::page_length;
use crate::paces::pace;
use crate::puts::{put_head, put_lines};
use best_split::Split;
use device::Kind;
use refusals::Refusal;
use split::Problem;

// The most bytes of a page.
pub const MOST_PAGE: usize = 3_130;

// Writes the page of a split to the front of the buffer and answers its length, or leaves the buffer as it is where it is too short.
pub fn write_page<K: Kind, L: Kind>(
    problem: &Problem<'_, K, L>,
    split: &Split,
    buffer: &mut [u8],
) -> Result<usize, Refusal>
    ensures refuses { outcome result ≡ page_refusal (page_of (net_of problem.now) (kinds_of K.meaning L.meaning problem.now) (stages_of split.now)) (length buffer.old) }
    ensures answers { IfOk result (HasPage (page_of (net_of problem.now) (kinds_of K.meaning L.meaning problem.now) (stages_of split.now)) buffer.old buffer.new) }
    ensures keeps { OnErr result (buffer.new ≡ buffer.old) }
    ensures short { length (page_of (net_of problem.now) (kinds_of K.meaning L.meaning problem.now) (stages_of split.now)) ≤ most_page }
    ensures most { «MOST_PAGE» ≡ most_page }
{
    let stages = split.stages();
    let pace = pace(problem, stages);
    if buffer.len() < page_length(stages, pace) {
        return Err(Refusal::BufferTooShort);
    }
    let at = put_head(buffer, 0, stages.len(), pace);
    Ok(put_lines(buffer, at, stages))
}

ghost use Rattle.std.specs.Prelude.{◌≤◌};
ghost use Rattle.pages.specs.Pages.{most_page, HasPage};
ghost use Rattle.page_report.specs.SplitPages.{page_or_refusal, Means};

use crate::plans::plan_file;
use crate::refused::put_refusal;
use pages::MOST_PAGE;

// Puts the page of the split of a sheet file at the front of the buffer, or the line of what is refused, and answers how long it is.
pub fn split_page(file: &[u8], buffer: &mut [u8; MOST_PAGE]) -> usize
    ensures page { HasPage (page_or_refusal file.now) buffer.old buffer.new result }
    ensures fits { result ≤ most_page }
    ensures means { Means file.now }
{
    match plan_file(file) {
        Ok(planner) => planner.page(buffer).unwrap(),
        Err(refusal) => put_refusal(buffer, refusal),
    }
}

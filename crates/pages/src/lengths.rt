// How long the parts of a page are.
ghost use Rattle.std.specs.Prelude.{◌≡◌, ◌+◌, ◌≤◌, length};
ghost use Rattle.std.specs.List.{flat_map};
ghost use Rattle.pages.specs.Pages.{stage_line, head_line};

use itoa::{Buffer, Integer};
use split::Stage;

// How long the text of a number is.
fn digits<N: Integer>(number: N) -> usize
    ensures value { result ≡ length (N.text number) }
    ensures few { result ≤ 40 }
{
    Buffer::new().format(number).len()
}

// How long the line of a stage is.
fn line_length(stage: &Stage) -> usize
    ensures { result ≡ length (stage_line stage.now) }
{
    // a letter and a line feed
    let mut length = 2;
    for operator in sets::members_of(stage.mask) {
        length += 1 + digits(operator);
    }
    length
}

// How long the page of these stages is.
pub(crate) fn page_length(stages: &[Stage], pace: u32) -> usize
    requires { length stages.now ≤ 16 }
    ensures { result ≡ length (head_line (length stages.now) pace) + length (flat_map stage_line stages.now) }
{
    // the two words with their spaces, and a line feed
    let mut length = 14 + digits(stages.len()) + digits(pace);
    for stage in stages {
        length += line_length(stage);
    }
    length
}

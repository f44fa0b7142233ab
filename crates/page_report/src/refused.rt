// The line of a refusal.
ghost use Rattle.std.specs.Prelude.{◌≤◌, [], length};
ghost use Rattle.refusals.specs.Told.{told};
ghost use Rattle.pages.specs.Pages.{HasPage};
ghost use Rattle.page_report.specs.SplitPages.{unless_refused};

use byte_fields::put;
use itoa::Buffer;
use refusals::Refusal;

// Puts the line of a refusal at the front of the buffer and answers its length. Only the number is told.
pub(crate) fn put_refusal(buffer: &mut [u8], refusal: Refusal) -> usize
    requires { 64 ≤ length buffer.old }
    ensures { HasPage (unless_refused (told refusal) []) buffer.old buffer.new result }
{
    let mut digits = Buffer::new();
    let number = digits.format(refusal.number()).as_bytes();
    let at = put(buffer, 0, b"refused ").unwrap();
    let at = put(buffer, at, number).unwrap();
    put(buffer, at, b"\n").unwrap()
}

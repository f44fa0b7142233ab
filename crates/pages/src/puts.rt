// The parts of a page, each put into a buffer at a place where there is room for it; the answer is the place after it.
ghost use Rattle.std.specs.Prelude.{◌≡◌, ◌+◌, ◌≤◌, length, ◌∷◌, []};
ghost use Rattle.std.specs.List.{flat_map};
ghost use Rattle.byte_fields.specs.Wrote.{Wrote};
ghost use Rattle.sets.specs.Sets.{members};
ghost use Rattle.pages.specs.Pages.{spaced, letter, stage_line, head_line};

use device::WhichKind;
use itoa::{Buffer, Integer};
use split::Stage;

// Bytes as they are.
fn put(buffer: &mut [u8], at: usize, part: &[u8]) -> usize
    requires { at + length part.now ≤ length buffer.old }
    ensures { Wrote buffer.old at result part.now buffer.new }
{
    byte_fields::put(buffer, at, part).unwrap()
}

// A number as its digits.
fn put_number<N: Integer>(buffer: &mut [u8], at: usize, number: N) -> usize
    requires { at + length (N.text number) ≤ length buffer.old }
    ensures { Wrote buffer.old at result (N.text number) buffer.new }
{
    let mut digits = Buffer::new();
    put(buffer, at, digits.format(number).as_bytes())
}

// The head: how many stages there are, and their pace.
pub(crate) fn put_head(buffer: &mut [u8], at: usize, count: usize, pace: u32) -> usize
    requires { at + length (head_line count pace) ≤ length buffer.old }
    ensures { Wrote buffer.old at result (head_line count pace) buffer.new }
{
    let at = put(buffer, at, b"stages ");
    let at = put_number(buffer, at, count);
    let at = put(buffer, at, b" pace ");
    let at = put_number(buffer, at, pace);
    put(buffer, at, b"\n")
}

// A space and the number for each operator of a set, ascending.
fn put_operators(buffer: &mut [u8], from: usize, mask: u64) -> usize
    requires { from + length (flat_map spaced (members mask)) ≤ length buffer.old }
    ensures { Wrote buffer.old from result (flat_map spaced (members mask)) buffer.new }
{
    let mut at = from;
    for operator in sets::members_of(mask) {
        let space = put(buffer, at, b" ");
        at = put_number(buffer, space, operator);
    }
    at
}

// The letter of a stage.
fn stage_letter(stage: &Stage) -> u8
    ensures { result ∷ [] ≡ letter stage.now }
{
    match WhichKind::try_from(stage.kind) {
        Ok(WhichKind::First) => b'A',
        _ => b'B',
    }
}

// The line of a stage.
fn put_line(buffer: &mut [u8], at: usize, stage: &Stage) -> usize
    requires { at + length (stage_line stage.now) ≤ length buffer.old }
    ensures { Wrote buffer.old at result (stage_line stage.now) buffer.new }
{
    let at = put(buffer, at, &[stage_letter(stage)]);
    let at = put_operators(buffer, at, stage.mask);
    put(buffer, at, b"\n")
}

// The lines of the stages, in their order.
pub(crate) fn put_lines(buffer: &mut [u8], from: usize, stages: &[Stage]) -> usize
    requires { from + length (flat_map stage_line stages.now) ≤ length buffer.old }
    ensures { Wrote buffer.old from result (flat_map stage_line stages.now) buffer.new }
{
    let mut at = from;
    for stage in stages {
        at = put_line(buffer, at, stage);
    }
    at
}

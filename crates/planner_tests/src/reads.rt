// What the calls that only read answer, held against the model.
use super::buffers::{Buffer, ROOM};
use super::costs::Told;
use super::models::Model;
use super::randoms::Random;
use device::{Accelerator, Processor};
use planner::Planner;
use refusals::Refusal;

pub(crate) type Under<S> = Planner<Accelerator, Processor, S>;

// A buffer that is as long as the text, one byte less, one more, or empty.
fn draw_room(random: &mut Random, length: usize) -> usize {
    match random.below(6) {
        0 => length.saturating_sub(1),
        1 => 0,
        2 => length.saturating_add(1),
        _ => length,
    }
}

// Whether what was written is the text where there was room, and nothing where there was not.
fn is_written(answer: Result<usize, Refusal>, room: &[u8], text: &[u8]) -> bool {
    if room.len() < text.len() {
        return answer == Err(Refusal::BufferTooShort) && room.iter().all(|byte| *byte == 7);
    }
    answer == Ok(text.len())
        && room.starts_with(text)
        && room.iter().skip(text.len()).all(|byte| *byte == 7)
}

fn writes_alike<S: Told>(planner: &Under<S>, model: &Model, random: &mut Random) -> bool {
    let file = model.net.file();
    let mut buffer = [7; ROOM];
    let end = draw_room(random, file.as_slice().len()).min(ROOM);
    let room = &mut buffer[..end];
    let answer = planner.write(room);
    is_written(answer, room, file.as_slice())
}

fn pages_alike<S: Told>(planner: &Under<S>, model: &Model, random: &mut Random) -> bool {
    let mut buffer = [7; 300];
    match model.page() {
        Ok(page) => {
            let end = draw_room(random, page.as_slice().len()).min(300);
            let room = &mut buffer[..end];
            let answer = planner.page(room);
            is_written(answer, room, page.as_slice())
        }
        Err(due) => planner.page(&mut buffer) == Err(due),
    }
}

fn ratings_alike<S: Told>(planner: &Under<S>, model: &Model) -> bool
where
    S::Rating: PartialEq,
{
    match (model.rating(), planner.rating()) {
        (Ok(rated), Ok(rating)) => S::told(&rated) == rating,
        (Err(due), Err(refusal)) => due == refusal,
        _ => false,
    }
}

fn stages_alike<S: Told>(planner: &Under<S>, model: &Model) -> bool {
    [0, 1, 2, 3, 4, 5, 6, 16, usize::MAX]
        .iter()
        .all(|i| planner.stage(*i) == model.stage(*i))
}

fn places_alike<S: Told>(planner: &Under<S>, model: &Model) -> bool {
    [0, 1, 2, 3, 4, 5, 6, 64, usize::MAX]
        .iter()
        .all(|v| planner.place(*v) == model.place(*v))
}

fn margins_alike<S: Told>(planner: &Under<S>, model: &Model, random: &mut Random) -> bool {
    let pick = u32::from(random.below(30));
    [pick, 1_000_000_000, 1_000_000_001]
        .iter()
        .all(|pick| planner.margin(*pick) == model.margin(*pick))
}

// Whether all of them answer as the model does.
pub(crate) fn reads_alike<S: Told>(planner: &Under<S>, model: &Model, random: &mut Random) -> bool
where
    S::Rating: PartialEq,
{
    ratings_alike(planner, model)
        && stages_alike(planner, model)
        && places_alike(planner, model)
        && margins_alike(planner, model, random)
        && pages_alike(planner, model, random)
        && writes_alike(planner, model, random)
}

// Long runs of calls, each answered as the model answers it, and after each the same split and the same sheet.
use super::buffers::Buffer;
use super::costs::Told;
use super::draws::{CELLS, Draw, IDEALS, SMALL, draw_call, draw_file, file_at};
use super::models::{Lengths, Model, Part};
use super::randoms::Random;
use super::reads::{Under, reads_alike};
use cells::Choice;
use device::{Accelerator, Processor};
use planner::{Granted, Plan, Planner, Step, run};
use refusals::Refusal;
use scale::{Line, Pair, PairRating, Peak};
use std::alloc::Global;
use std::array;
use std::test::Fail;

// The limit of the accelerator, which half of the sheets exceed as a whole.
const LIMIT: u32 = 6;

// How many planners there are, how many calls each gets, and how many operators its sheet is to have at most.
#[derive(Clone, Copy)]
struct Extent {
    planners: u32,
    calls: u32,
    widest: usize,
}

// What a call answers.
type Answer<R> = Result<Granted<R>, Refusal>;

// How often calls are granted, plans among them, how often each refusal comes, and how often planner and model differ.
#[derive(Clone, Copy, PartialEq, Eq, Debug)]
struct Tally {
    granted: u32,
    planned: u32,
    refused: [u32; 16],
    differing: u32,
}

impl Tally {
    fn new() -> Tally {
        Tally {
            granted: 0,
            planned: 0,
            refused: [0; 16],
            differing: 0,
        }
    }

    fn note<R>(&mut self, answer: &Answer<R>) {
        match answer {
            Ok(Granted::Planned(_)) => self.planned = self.planned.saturating_add(1),
            Ok(_) => self.granted = self.granted.saturating_add(1),
            Err(refusal) => {
                if let Some(count) = self.refused.get_mut(usize::from(refusal.number())) {
                    *count = count.saturating_add(1);
                }
            }
        }
    }

    fn note_agreement(&mut self, agrees: bool) {
        if !agrees {
            self.differing = self.differing.saturating_add(1);
        }
    }
}

// The answers of single calls as those of any call. Not by `map`, since the checker does not follow a generic variant that is passed as a function.
fn added<R>(answer: Result<usize, Refusal>) -> Answer<R> {
    Ok(Granted::Added(answer?))
}

fn changed<R>(answer: Result<(), Refusal>) -> Answer<R> {
    answer?;
    Ok(Granted::Changed)
}

// Plans in the fronts of three tables, of these lengths.
fn plan<S: Told>(
    planner: &mut Under<S>,
    lent: &Lengths,
    ideals: &mut [u64],
    ratings: &mut [S::Rating],
    choices: &mut [Choice],
) -> Answer<S::Rating> {
    let x = lent.ideals.min(ideals.len());
    let y = lent.ratings.min(ratings.len());
    let z = lent.choices.min(choices.len());
    let plan = planner.plan(&mut ideals[..x], &mut ratings[..y], &mut choices[..z])?;
    Ok(Granted::Planned(plan))
}

// Makes the call on a planner.
fn make<S: Told>(
    planner: &mut Under<S>,
    call: &Draw,
    files: &[Buffer; 8],
    ratings: &mut [S::Rating],
) -> Answer<S::Rating> {
    match call {
        Draw::Add(row) => added(planner.add(row.operator())),
        Draw::Join(from, to) => changed(planner.join(*from, *to)),
        Draw::Retime(v, row) => changed(planner.retime(*v, &row.operator())),
        Draw::Count(k, l) => changed(planner.count(*k, *l)),
        Draw::Load(number) => changed(planner.load(file_at(files, *number))),
        Draw::Clear => {
            planner.clear();
            Ok(Granted::Changed)
        }
        Draw::Plan(lent) => plan(
            planner,
            lent,
            &mut [9; IDEALS],
            ratings,
            &mut [Choice::NONE; CELLS],
        ),
    }
}

// Makes a call other than a plan on the model.
fn model<R>(model: &mut Model, call: &Draw, files: &[Buffer; 8]) -> Option<Answer<R>> {
    let answer = match call {
        Draw::Add(row) => added(model.add(row)),
        Draw::Join(from, to) => changed(model.join(*from, *to)),
        Draw::Retime(v, row) => changed(model.retime(*v, row)),
        Draw::Count(k, l) => changed(model.count(*k, *l)),
        Draw::Load(number) => changed(model.load(file_at(files, *number))),
        Draw::Clear => {
            model.clear();
            Ok(Granted::Changed)
        }
        Draw::Plan(_) => return None,
    };
    Some(answer)
}

// Whether the planner's stages are a lawful split of the model's sheet that rates as the plan says; from then on they stand in the model.
fn settles<S: Told>(planner: &Under<S>, model: &mut Model, plan: &Plan<S::Rating>) -> bool
where
    S::Rating: PartialEq,
{
    let mut parts = [Part { kind: 0, mask: 0 }; 16];
    for (i, part) in parts.iter_mut().take(plan.stages).enumerate() {
        let Ok((kind, mask, _)) = planner.stage(i) else {
            return false;
        };
        *part = Part { kind, mask };
    }
    let Some(parts) = parts.get(..plan.stages) else {
        return false;
    };
    match model.settle(parts) {
        Some(rated) => S::told(&rated) == plan.rating,
        None => false,
    }
}

// Whether a plan was answered as the model answers it: with the least rating of all lawful splits, and with a split of that rating.
fn plans_alike<S: Told>(
    planner: &Under<S>,
    model: &mut Model,
    lent: &Lengths,
    answer: &Answer<S::Rating>,
) -> bool
where
    S::Rating: PartialEq,
{
    match (model.plan(lent), answer) {
        (Ok((least, ideals)), Ok(Granted::Planned(plan))) => {
            plan.rating == S::told(&least) && plan.ideals == ideals && settles(planner, model, plan)
        }
        (Err(due), Err(refusal)) => due == *refusal,
        _ => false,
    }
}

// Whether a call was answered as the model answers it.
fn answers_alike<S: Told>(
    planner: &Under<S>,
    model: &mut Model,
    call: &Draw,
    files: &[Buffer; 8],
    answer: &Answer<S::Rating>,
) -> bool
where
    S::Rating: PartialEq,
{
    match call {
        Draw::Plan(lent) => plans_alike(planner, model, lent, answer),
        _ => self::model(model, call, files) == Some(*answer),
    }
}

// Makes the calls once more, by one call that works them all off, and answers whether the same came back and the same stands in the end.
fn runs_alike<S: Told>(
    made: &[(Draw, Answer<S::Rating>)],
    files: &[Buffer; 8],
    scale: S,
    ratings: &mut [S::Rating],
    model: &Model,
    random: &mut Random,
    alloc: Global,
) -> Result<bool, Fail>
where
    S::Rating: PartialEq,
{
    let mut steps = Vec::new(alloc);
    for (call, _) in made {
        steps.push(Step {
            call: call.call(files),
            answer: None,
        })?;
    }
    let planner = run(
        Accelerator::new(LIMIT)?,
        Processor,
        scale,
        &mut steps,
        &mut [9; IDEALS],
        ratings,
        &mut [Choice::NONE; CELLS],
    );
    let answered = steps
        .iter()
        .zip(made)
        .all(|(step, (_, answer))| step.answer == Some(*answer));
    Ok(answered && reads_alike(&planner, model, random))
}

impl Tally {
    // Draws the calls for a new planner, and compares at each.
    fn compare<S: Told>(
        &mut self,
        random: &mut Random,
        scale: S,
        extent: Extent,
        ratings: &mut [S::Rating],
        alloc: Global,
    ) -> Result<(), Fail>
    where
        S::Rating: PartialEq,
    {
        let files = array::from_fn(|_| draw_file(random));
        let mut planner = Planner::new(Accelerator::new(LIMIT)?, Processor, scale);
        let mut model = Model::new(LIMIT);
        let mut made = Vec::new(alloc);
        for _ in 0..extent.calls {
            let call = draw_call(random, &model.net, extent.widest);
            let answer = make(&mut planner, &call, &files, ratings);
            self.note(&answer);
            self.note_agreement(answers_alike(&planner, &mut model, &call, &files, &answer));
            self.note_agreement(reads_alike(&planner, &model, random));
            made.push((call, answer))?;
        }
        let agrees = runs_alike(&made, &files, scale, ratings, &model, random, alloc)?;
        self.note_agreement(agrees);
        Ok(())
    }

    // Whether each of these refusals came, and so often at least.
    fn has_each(&self, numbers: &[usize], least: u32) -> bool {
        numbers.iter().all(
            |number| matches!(self.refused.get(*number), Some(count) if *count >= least),
        )
    }

    // Whether there were many plans, and each refusal of a call on small sheets.
    fn is_varied(&self) -> bool {
        self.planned > 5000 && self.has_each(&[1, 3, 4, 5, 6, 7, 8, 9, 12, 13, 14], 50)
    }
}

// Compares on new planners, one after another.
fn compare<S: Told>(
    seed: u64,
    scale: S,
    extent: Extent,
    ratings: &mut [S::Rating],
    alloc: Global,
) -> Result<Tally, Fail>
where
    S::Rating: PartialEq,
{
    let mut random = Random::new(seed);
    let mut tally = Tally::new();
    for _ in 0..extent.planners {
        tally.compare(&mut random, scale, extent, ratings, alloc)?;
    }
    Ok(tally)
}

const SMALL_SHEETS: Extent = Extent {
    planners: 500,
    calls: 100,
    widest: SMALL,
};

const LARGE_SHEETS: Extent = Extent {
    planners: 40,
    calls: 500,
    widest: 80,
};

#[test]
fn on_peak(rt: HostRuntime) -> Result<(), Fail> {
    let tally = compare(1, Peak, SMALL_SHEETS, &mut [9; CELLS], rt.alloc())?;
    assert_eq!(rt; tally.differing, 0, "{tally:?}");
    assert!(rt; tally.is_varied(), "{tally:?}");
    Ok(())
}

#[test]
fn on_line(rt: HostRuntime) -> Result<(), Fail> {
    let tally = compare(2, Line, SMALL_SHEETS, &mut [9; CELLS], rt.alloc())?;
    assert_eq!(rt; tally.differing, 0, "{tally:?}");
    assert!(rt; tally.is_varied(), "{tally:?}");
    Ok(())
}

#[test]
fn on_pair(rt: HostRuntime) -> Result<(), Fail> {
    let tally = compare(
        3,
        Pair,
        SMALL_SHEETS,
        &mut [PairRating::default(); CELLS],
        rt.alloc(),
    )?;
    assert_eq!(rt; tally.differing, 0, "{tally:?}");
    assert!(rt; tally.is_varied(), "{tally:?}");
    Ok(())
}

#[test]
fn with_up_to_64_operators(rt: HostRuntime) -> Result<(), Fail> {
    let tally = compare(4, Peak, LARGE_SHEETS, &mut [9; CELLS], rt.alloc())?;
    assert_eq!(rt; tally.differing, 0, "{tally:?}");
    assert!(rt; tally.has_each(&[1, 2, 3, 4, 5, 6, 7], 100), "{tally:?}");
    Ok(())
}

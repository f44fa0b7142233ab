// What `find` answers is what the brute force finds.
use super::brute_force::{Ratings, least};
use super::costs::Drawn;
use super::drafts::Draft;
use super::randoms::Random;
use best_split::find;
use cells::Choice;
use device::{Accelerator, Kind, Processor};
use refusals::Refusal;
use scale::{Line, Pair, PairRating, Peak, Scale};
use split::Problem;
use std::test::Fail;

// How many drafts have a lawful split, how many have none, and about how many `find` and the brute force differ.
#[derive(Clone, Copy, PartialEq, Eq, Default, Debug)]
struct Tally {
    granted: u32,
    refused: u32,
    differing: u32,
}

// Whether `find` answers this rating with stages that the judge gives the same, or that there is no lawful split.
fn finds<K: Kind, L: Kind, S: Scale>(
    problem: &Problem<'_, K, L>,
    scale: &S,
    ratings: &mut [S::Rating],
    expected: Option<S::Rating>,
) -> bool
where
    S::Rating: PartialEq,
{
    let mut ideals = [0; 64];
    let mut choices = [Choice::NONE; 1024];
    match find(problem, scale, &mut ideals, ratings, &mut choices) {
        Ok(found) => {
            let judged = problem.judge(scale, found.split.stages());
            expected == Some(found.rating) && judged == Ok(found.rating)
        }
        Err(refusal) => refusal == Refusal::NoLawfulSplit && expected.is_none(),
    }
}

// The same on each of the three scales.
fn finds_on_each<K: Kind, L: Kind>(problem: &Problem<'_, K, L>, expected: Option<Ratings>) -> bool {
    let peak = expected.map(|ratings| ratings.peak);
    let line = expected.map(|ratings| ratings.line);
    let pair = expected.map(|ratings| {
        let (ticks, link) = ratings.pair;
        PairRating { ticks, link }
    });
    finds(problem, &Peak, &mut [0; 1024], peak)
        && finds(problem, &Line, &mut [0; 1024], line)
        && finds(problem, &Pair, &mut [PairRating::default(); 1024], pair)
}

impl Tally {
    // Holds `find` against the brute force at this draft.
    fn compare<K: Drawn, L: Drawn>(
        &mut self,
        draft: &Draft,
        first: &K,
        second: &L,
    ) -> Result<(), Refusal> {
        let sheet = draft.sheet()?;
        let problem = Problem {
            sheet: &sheet,
            first,
            second,
        };
        let expected = least(draft, first, second);
        if !finds_on_each(&problem, expected) {
            self.differing = self.differing.saturating_add(1);
        } else if expected.is_some() {
            self.granted = self.granted.saturating_add(1);
        } else {
            self.refused = self.refused.saturating_add(1);
        }
        Ok(())
    }
}

// Draws so many drafts and kinds, and compares at each.
fn compare<K: Drawn, L: Drawn>(seed: u64, drafts: u32) -> Result<Tally, Refusal> {
    let mut random = Random::new(seed);
    let mut tally = Tally::default();
    for _ in 0..drafts {
        let draft = Draft::draw(&mut random);
        let first = K::draw(&mut random)?;
        let second = L::draw(&mut random)?;
        tally.compare(&draft, &first, &second)?;
    }
    Ok(tally)
}

// How many are granted and refused follows from the seed: enough of both.
#[test]
fn an_accelerator_and_a_processor(rt: HostRuntime) -> Result<(), Fail> {
    let tally = compare::<Accelerator, Processor>(1, 2000)?;
    let expected = Tally {
        granted: 1688,
        refused: 312,
        differing: 0,
    };
    assert_eq!(rt; tally, expected);
    Ok(())
}

#[test]
fn a_processor_and_an_accelerator(rt: HostRuntime) -> Result<(), Fail> {
    let tally = compare::<Processor, Accelerator>(2, 1000)?;
    let expected = Tally {
        granted: 848,
        refused: 152,
        differing: 0,
    };
    assert_eq!(rt; tally, expected);
    Ok(())
}

#[test]
fn two_accelerators(rt: HostRuntime) -> Result<(), Fail> {
    let tally = compare::<Accelerator, Accelerator>(3, 1000)?;
    let expected = Tally {
        granted: 706,
        refused: 294,
        differing: 0,
    };
    assert_eq!(rt; tally, expected);
    Ok(())
}

#[test]
fn two_processors(rt: HostRuntime) -> Result<(), Fail> {
    let tally = compare::<Processor, Processor>(4, 500)?;
    let expected = Tally {
        granted: 473,
        refused: 27,
        differing: 0,
    };
    assert_eq!(rt; tally, expected);
    Ok(())
}

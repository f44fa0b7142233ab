// Tables of each length around what the diamond needs on two devices of the first kind: what is written, and what stays.
use super::sheets::diamond;
use best_split::find;
use cells::Choice;
use device::{Accelerator, Processor};
use refusals::Refusal;
use scale::Peak;
use split::Problem;
use std::test::Fail;

const IDEALS: [u64; 6] = [0, 1, 3, 5, 7, 15];

// Each ideal has a cell for 0, 1 and 2 devices.
const CELLS: usize = 18;

// What stands in the tables before; none of it is ever written there.
const OLD_IDEAL: u64 = 99;

const OLD_RATING: u32 = 999;

const OLD_CHOICE: Choice = Choice { ideal: 9, kind: 9 };

// How much of each table is lent.
#[derive(Clone, Copy, Debug)]
struct Lengths {
    ideals: usize,
    ratings: usize,
    choices: usize,
}

// The three tables, each longer than what the diamond needs.
#[derive(Drop)]
struct Tables {
    ideals: [u64; 9],
    ratings: [u32; 20],
    choices: [Choice; 20],
}

impl Tables {
    fn new() -> Tables {
        Tables {
            ideals: [OLD_IDEAL; 9],
            ratings: [OLD_RATING; 20],
            choices: [OLD_CHOICE; 20],
        }
    }

    // The rating that is found for the diamond on accelerators with this limit, in so much of the tables.
    fn find(&mut self, limit: u32, lent: Lengths) -> Option<Result<u32, Refusal>> {
        let problem = Problem {
            sheet: &diamond(2, 0).ok()?,
            first: &Accelerator::new(limit).ok()?,
            second: &Processor,
        };
        let ideals = self.ideals.get_mut(..lent.ideals)?;
        let ratings = self.ratings.get_mut(..lent.ratings)?;
        let choices = self.choices.get_mut(..lent.choices)?;
        let found = find(&problem, &Peak, ideals, ratings, choices);
        Some(found.map(|found| found.rating))
    }

    // Whether the first so many ideals are listed, and nothing beyond them.
    fn lists(&self, count: usize) -> bool {
        let listed = self.ideals.iter().take(count);
        let kept = self.ideals.iter().skip(count);
        listed.eq(IDEALS.iter().take(count)) && kept.copied().all(|ideal| ideal == OLD_IDEAL)
    }

    // Whether the first so many cells are written, and nothing beyond them.
    fn fills(&self, cells: usize) -> bool {
        let ratings = self.ratings.iter().enumerate();
        let choices = self.choices.iter().enumerate();
        ratings
            .map(|(cell, rating)| (*rating != OLD_RATING) == (cell < cells))
            .all(|holds| holds)
            && choices
                .map(|(cell, choice)| (*choice != OLD_CHOICE) == (cell < cells))
                .all(|holds| holds)
    }
}

// Why tables of these lengths do not suffice.
fn lack(lent: Lengths) -> Option<Refusal> {
    if lent.ideals < IDEALS.len() {
        return Some(Refusal::TooManyIdeals);
    }
    if lent.ratings < CELLS || lent.choices < CELLS {
        return Some(Refusal::TooFewCells);
    }
    None
}

// Whether what is found is this where the tables suffice, and just what there is room for is written.
fn is_as_told(limit: u32, lent: Lengths, outcome: Result<u32, Refusal>) -> bool {
    let mut tables = Tables::new();
    let found = tables.find(limit, lent);
    let listed = lent.ideals.min(IDEALS.len());
    match lack(lent) {
        Some(refusal) => found == Some(Err(refusal)) && tables.lists(listed) && tables.fills(0),
        None => found == Some(outcome) && tables.lists(listed) && tables.fills(CELLS),
    }
}

// Each length of the table of ideals up to three more than needed, with tables of cells that are empty, one too short, just enough and longer.
#[test]
fn tables_of_each_length(rt: HostRuntime) {
    for ideals in 0..=9 {
        for ratings in [0, 17, 18, 19, 20] {
            for choices in [0, 17, 18, 19, 20] {
                let lent = Lengths {
                    ideals,
                    ratings,
                    choices,
                };
                assert!(rt; is_as_told(4, lent, Ok(8)), "{lent:?}");
                assert!(rt;
                    is_as_told(0, lent, Err(Refusal::NoLawfulSplit)),
                    "{lent:?}, where nothing fits"
                );
            }
        }
    }
}

// What is found on the scale of peaks, in tables for the diamond with two devices of each kind.
use best_split::{Found, find};
use cells::Choice;
use device::Kind;
use refusals::Refusal;
use scale::Peak;
use sheet::Sheet;
use split::Problem;

pub(crate) fn peak<K: Kind, L: Kind>(
    sheet: &Sheet,
    first: &K,
    second: &L,
) -> Result<Found<u32>, Refusal> {
    let problem = Problem {
        sheet,
        first,
        second,
    };
    find(
        &problem,
        &Peak,
        &mut [0; 6],
        &mut [0; 54],
        &mut [Choice::NONE; 54],
    )
}

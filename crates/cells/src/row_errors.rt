// Why a row is neither offered to nor cleared.
#[derive(Clone, Copy, PartialEq, Eq, Debug)]
pub enum RowError {
    // the row that is offered does not end before it begins
    Overlaps,
    // it does not end within the ratings
    PastRatings,
    // nor within the choices
    PastChoices,
}

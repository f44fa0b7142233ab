use device::Kind;
use sheet::Sheet;

// What splits are made for: a sheet, and the two device kinds. It has no model, since what a kind answers is a function, and a model's value holds none.
#[derive(Clone, Copy)]
pub struct Problem<'a, K: Kind, L: Kind> {
    pub sheet: &'a Sheet,
    pub first: &'a K,
    pub second: &'a L,
}

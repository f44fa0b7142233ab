// One cell offered to another, and many to as many.
ghost use Rattle.std.specs.Prelude.{◌≡◌, ◌⊎◌, ℕ, ◌+◌, ◌<◌, ◌≤◌, not, ◌||◌, ◌==◌};
ghost use Rattle.device.specs.Views.{load_of};
ghost use Rattle.cells.specs.Cells.{lowered, offered, poked, shifted, cleared};
ghost use Rattle.cells.specs.Falls.{candidate, settled, Bounded};
ghost use Rattle.cells.specs.Tables.{table, HasCells, SameTables, TablesTurn};

use super::Choice;
use device::Load;
use scale::Scale;

// The two tables that a caller lends, with one cell at each place: its rating and its choice.
// That they stay the caller's own, `SameTables`, each method says for itself: it relates two moments, and a type knows one.
#[derive(Drop)]
pub struct Tables<'a, R> {
    pub ratings: &'a mut [R],
    pub choices: &'a mut [Choice],
}

// Whether a candidate takes the place of what a cell holds: where nothing stands there, or what stands is not at most the candidate.
fn is_lower<S: Scale>(scale: &S, held: S::Rating, choice: Choice, rating: S::Rating) -> bool
    ensures { result ≡ (choice.kind == 0 || not ((S.Scale.rules scale.now).at_most held rating)) }
{
    choice.is_none() || !scale.is_at_most(held, rating)
}

// Whether a rating stands in a cell with the choice `held` of the ideal that `choice` names.
fn is_standing(choice: Choice, held: Choice) -> bool
    ensures { result ≡ (choice.ideal == 0 || not (held.kind == 0)) }
{
    choice.ideal == 0 || !held.is_none()
}

impl<'a, R: Copy> Tables<'a, R> {
    // Holds a candidate against the cell `to`, and writes it there where it is less than what is there, or the first.
    fn lower<S: Scale<Rating = R>>(&mut self, scale: &S, to: usize, rating: R, choice: Choice)
        requires { HasCells self.old (to + 1) }
        ensures same { SameTables self.old self.new }
        ensures turns { let s = S.Scale.rules scale.now in TablesTurn s self.old self.new (poked s to (lowered s rating choice)) }
    {
        if is_lower(scale, self.ratings[to], self.choices[to], rating) {
            self.ratings[to] = rating;
            self.choices[to] = choice;
        }
    }

    // Offers the cell `from` to the cell `to`, with one stage of this load more.
    // The ends, the choice and the load have no struct: each of the calls on the way makes other ends, and a struct would be made anew for each cell.
    fn offer<S: Scale<Rating = R>>(
        &mut self,
        scale: &S,
        from: usize,
        to: usize,
        choice: Choice,
        load: &Load,
    )
        requires apart { from < to }
        requires room { HasCells self.old (to + 1) }
        ensures same { SameTables self.old self.new }
        ensures turns { let s = S.Scale.rules scale.now in TablesTurn s self.old self.new (poked s to (offered s choice (load_of load.now) (table s self.old from))) }
    {
        if is_standing(choice, self.choices[from]) {
            let rating = scale.join(self.ratings[from], load);
            self.lower(scale, to, rating, choice);
        }
    }

    // What the cell `from` gives with one stage of this load more, where a rating stands there of the ideal that `choice` names.
    pub(crate) fn candidate<S: Scale<Rating = R>>(
        &self,
        scale: &S,
        from: usize,
        choice: Choice,
        load: &Load,
    ) -> Option<R>
        requires { HasCells self.now (from + 1) }
        ensures { let s = S.Scale.rules scale.now in result ≡ candidate s choice (load_of load.now) (table s self.now from) }
    {
        is_standing(choice, self.choices[from]).then(|| scale.join(self.ratings[from], load))
    }

    // Whether the cell `at` holds a candidate that is at most `bound`.
    pub(crate) fn is_settled<S: Scale<Rating = R>>(&self, scale: &S, at: usize, bound: R) -> bool
        requires { HasCells self.now (at + 1) }
        ensures { let s = S.Scale.rules scale.now in result ≡ settled s bound (table s self.now at) }
    {
        !self.choices[at].is_none() && scale.is_at_most(self.ratings[at], bound)
    }

    // Offers the `count` cells from `from` on to those from `to` on, up to the first that is settled:
    // where no candidate is below `bound`, and no cell is worse than one before it, those after it are settled too.
    pub(crate) fn shift<S: Scale<Rating = R>>(
        &mut self,
        scale: &S,
        from: usize,
        to: usize,
        count: usize,
        choice: Choice,
        load: &Load,
        bound: R,
    )
        requires apart { from + count ≤ to }
        requires room { HasCells self.old (to + count) }
        ensures same { SameTables self.old self.new }
        ensures each { let s = S.Scale.rules scale.now in let x = load_of load.now in let before = table s self.old in (c : ℕ) → (table s self.new c ≡ before c) ⊎ (table s self.new c ≡ shifted s choice x from to count before c) }
        ensures turns { let s = S.Scale.rules scale.now in Bounded s choice (load_of load.now) bound from to count (table s self.old) → TablesTurn s self.old self.new (shifted s choice (load_of load.now) from to count) }
    {
        // By number: a cell is one place in two tables. Of two slices that are written through a `zip` a proof does not know what they hold afterwards, and a walk over one of them would leave the number for the other and for the cell that is offered.
        for c in 0..count {
            if self.is_settled(scale, to + c, bound) {
                return;
            }
            self.offer(scale, from + c, to + c, choice, load);
        }
    }

    // Clears the `count` cells from `to` on.
    pub(crate) fn clear<S: Scale<Rating = R>>(&mut self, scale: &S, to: usize, count: usize)
        requires { HasCells self.old (to + count) }
        ensures same { SameTables self.old self.new }
        ensures turns { let s = S.Scale.rules scale.now in TablesTurn s self.old self.new (cleared s to count) }
    {
        let start = scale.start();
        let end = to + count;
        // of a rating it is known that it can be copied; `fill` asks that it be cloned without fail
        self.ratings[to..end].fill_with(|| start);
        self.choices[to..end].fill(Choice::NONE);
    }
}

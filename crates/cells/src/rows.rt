// A row offered to a row. The row of an ideal begins past those of the ideals before it.
ghost use Rattle.std.specs.Prelude.{◌≡◌, ◌+◌, ◌≤◌, nat_le, is_ok, OnOk, OnErr};
ghost use Rattle.std.specs.Result.{result_err};
ghost use Rattle.device.specs.Views.{answered};
ghost use Rattle.cells.specs.Falls.{Within, PerhapsOn, PerhapsBoth, BothFall};
ghost use Rattle.cells.specs.Rows.{width_of, runs_of, on, both, clear, row, Onto};
ghost use Rattle.cells.specs.Tables.{table, HasCells, SameTables, holds_row, holds_rows, row_error, rows_error};

use super::{Choice, RowError, Tables};
use device::{Load, WhichKind};
use scale::Scale;
use sheet::Counts;

// How the rows of the cells lie, by the counts of devices, and how they are rated.
#[derive(Drop)]
pub struct Rows<'a, S> {
    scale: &'a S,
    counts: Counts,
    width: usize,
    ghost wide: { width ≡ width_of counts.k counts.l },
}

// Where a stage leads on in a row: from the first `cells` cells of each of the first `count` lines, each to the cell `step` further.
#[derive(Clone, Copy)]
struct Runs {
    count: usize,
    cells: usize,
    step: usize,
}

// How many cells a row has where there are so many devices.
pub fn width(counts: Counts) -> usize
    ensures { result ≡ width_of counts.k counts.l }
{
    (usize::from(counts.k) + 1) * (usize::from(counts.l) + 1)
}

// Whether a row of `width` cells that begins at `at` ends within `cells` cells.
fn ends_within(at: usize, width: usize, cells: usize) -> bool
    ensures { result ≡ nat_le (at + width) cells }
{
    at.checked_add(width).is_some_and(|end| end <= cells)
}

impl<'a, S: Scale> Rows<'a, S> {
    pub fn new(scale: &'a S, counts: Counts) -> Rows<'a, S>
        ensures scale { result.scale.now ≡ scale.now }
        ensures counts { result.counts ≡ counts }
    {
        Rows {
            scale,
            counts,
            width: width(counts),
        }
    }

    // How many devices there are of each kind.
    pub fn counts(&self) -> Counts
        ensures { result ≡ self.now.counts }
    {
        self.counts
    }

    // How many cells a line has.
    fn line(&self) -> usize
        ensures { result ≡ self.now.counts.l + 1 }
    {
        usize::from(self.counts.l) + 1
    }

    // How many cells a row has.
    pub fn width(&self) -> usize
        ensures { result ≡ width_of self.now.counts.k self.now.counts.l }
    {
        self.width
    }

    // The runs of a kind: of the first, each line but the last leads to the next one; of the second, in each line each cell but the last leads to the next one.
    fn runs(&self, kind: WhichKind) -> Runs
        ensures { result ≡ runs_of self.now.counts.k self.now.counts.l kind }
    {
        let k = usize::from(self.counts.k);
        match kind {
            WhichKind::First => Runs {
                count: k,
                cells: self.line(),
                step: self.line(),
            },
            WhichKind::Second => Runs {
                count: k + 1,
                cells: usize::from(self.counts.l),
                step: 1,
            },
        }
    }

    // Offers the row at `from`, of an ideal, to the row at `to`, with a stage of this load on this kind: each cell, where both rows fall.
    // Then no candidate is below that of the last cell that leads on. Where this is no lower than the first cell that a run leads to, it is no lower than any cell that this run or a later one leads to.
    // In line at both of its calls: out of line the addresses of the two tables are read anew after each write.
    #[inline(always)]
    fn offer_on(
        &self,
        tables: &mut Tables<'_, S::Rating>,
        from: usize,
        to: usize,
        ideal: u32,
        kind: WhichKind,
        load: &Option<Load>,
    )
        requires apart { from + width_of self.now.counts.k self.now.counts.l ≤ to }
        requires room { HasCells tables.old (to + width_of self.now.counts.k self.now.counts.l) }
        ensures same { SameTables tables.old tables.new }
        ensures perhaps { let s = S.Scale.rules self.now.scale.now in let l = self.now.counts.l in let before = table s tables.old in Within l (self.now.counts.k + 1) to (PerhapsOn s kind ideal (answered load.now) (row l from before)) before (table s tables.new) }
        ensures offers { let s = S.Scale.rules self.now.scale.now in let k = self.now.counts.k in let l = self.now.counts.l in let before = table s tables.old in BothFall s k l ideal from to before → Onto l (k + 1) to (on s kind ideal (answered load.now) (row l from before)) before (table s tables.new) }
    {
        let Some(load) = load else {
            return;
        };
        let choice = Choice::of(ideal, kind);
        let runs = self.runs(kind);
        if runs.count == 0 || runs.cells == 0 {
            return;
        }
        let line = self.line();
        let last = from + (runs.count - 1) * line + runs.cells - 1;
        let Some(bound) = tables.candidate(self.scale, last, choice, load) else {
            return;
        };
        // the lines of a row by number, since they begin at its multiples in the two tables
        for r in 0..runs.count {
            let at = r * line;
            if tables.is_settled(self.scale, to + at + runs.step, bound) {
                return;
            }
            tables.shift(
                self.scale,
                from + at,
                to + at + runs.step,
                runs.cells,
                choice,
                load,
                bound,
            );
        }
    }

    // Looks whether a row at `at` ends within the tables.
    fn check_room(&self, tables: &Tables<'_, S::Rating>, at: usize) -> Result<(), RowError>
        ensures fits { is_ok result ≡ holds_row tables.now at (width_of self.now.counts.k self.now.counts.l) }
        ensures refuses { result_err result ≡ row_error tables.now at (width_of self.now.counts.k self.now.counts.l) }
    {
        if !ends_within(at, self.width(), tables.ratings.len()) {
            return Err(RowError::PastRatings);
        }
        if !ends_within(at, self.width(), tables.choices.len()) {
            return Err(RowError::PastChoices);
        }
        Ok(())
    }

    // Offers the row at `from`, of an ideal, to the row at `to`: with a stage of the load `x` on kind 1, then with one of the load `y` on kind 2.
    // Where both rows fall, as those of a table that is filled row by row do, each cell of the second becomes what both offers make of it. Of other rows some cells may be left out.
    // Out of line: in line the loops over cells run out of registers.
    #[inline(never)]
    pub fn offer(
        &self,
        tables: &mut Tables<'_, S::Rating>,
        from: usize,
        to: usize,
        ideal: u32,
        x: &Option<Load>,
        y: &Option<Load>,
    ) -> Result<(), RowError>
        ensures fits { is_ok result ≡ holds_rows tables.old from to (width_of self.now.counts.k self.now.counts.l) }
        ensures refuses { result_err result ≡ rows_error tables.old from to (width_of self.now.counts.k self.now.counts.l) }
        ensures same { SameTables tables.old tables.new }
        ensures perhaps { let s = S.Scale.rules self.now.scale.now in let l = self.now.counts.l in let before = table s tables.old in OnOk result (Within l (self.now.counts.k + 1) to (PerhapsBoth s ideal (answered x.now) (answered y.now) (row l from before)) before (table s tables.new)) }
        ensures offers { let s = S.Scale.rules self.now.scale.now in let k = self.now.counts.k in let l = self.now.counts.l in let before = table s tables.old in OnOk result (BothFall s k l ideal from to before → Onto l (k + 1) to (both s ideal (answered x.now) (answered y.now) (row l from before)) before (table s tables.new)) }
        ensures keeps { OnErr result (tables.new ≡ tables.old) }
    {
        if !ends_within(from, self.width(), to) {
            return Err(RowError::Overlaps);
        }
        self.check_room(tables, to)?;
        // lent once more: the addresses of the caller's `Tables` would be read anew after each write
        let mut lent = Tables {
            ratings: &mut *tables.ratings,
            choices: &mut *tables.choices,
        };
        self.offer_on(&mut lent, from, to, ideal, WhichKind::First, x);
        self.offer_on(&mut lent, from, to, ideal, WhichKind::Second, y);
        Ok(())
    }

    // Clears the row at `at`.
    pub fn clear(&self, tables: &mut Tables<'_, S::Rating>, at: usize) -> Result<(), RowError>
        ensures fits { is_ok result ≡ holds_row tables.old at (width_of self.now.counts.k self.now.counts.l) }
        ensures refuses { result_err result ≡ row_error tables.old at (width_of self.now.counts.k self.now.counts.l) }
        ensures same { SameTables tables.old tables.new }
        ensures clears { let s = S.Scale.rules self.now.scale.now in OnOk result (Onto self.now.counts.l (self.now.counts.k + 1) at (clear s) (table s tables.old) (table s tables.new)) }
        ensures keeps { OnErr result (tables.new ≡ tables.old) }
    {
        self.check_room(tables, at)?;
        tables.clear(self.scale, at, self.width());
        Ok(())
    }
}

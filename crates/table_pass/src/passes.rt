ghost use Rattle.std.specs.Prelude.{◌≡◌, ◌*◌, ◌<◌, ◌≤◌, true, false, length, slice_index};
ghost use Rattle.sets.specs.Sets.{inside};
ghost use Rattle.split.specs.Problems.{net_of};
ghost use Rattle.stage_memo.specs.Views.{memo_net};
ghost use Rattle.cells.specs.Rows.{width_of};
ghost use Rattle.cells.specs.Tables.{SameTables};

use cells::{Rows, Tables};
use device::Kind;
use scale::Scale;
use split::Problem;
use stage_memo::StageMemo;

// A pass over the cells of all ideals, and what it has measured on the way.
// The tables are handed to each method, which asks for their room: a struct within a struct would lose the lender's slices.
#[derive(Drop)]
pub(crate) struct Pass<'a, K: Kind, L: Kind, S: Scale> {
    pub(crate) problem: &'a Problem<'a, K, L>,
    pub(crate) rows: Rows<'a, S>,
    pub(crate) memo: StageMemo<'a>,
    pub(crate) ideals: &'a [u64],
    ghost measures: { memo_net memo ≡ net_of problem.now },
    ghost few: { length ideals.now ≤ 4096 },
}

impl<K: Kind, L: Kind, S: Scale> Pass<'_, K, L, S> {
    ghost use Rattle.table_pass.specs.Filled.{reached, Filled, Passed};
    ghost use Rattle.table_pass.specs.Passes.{setting_of, cells_in, leading, offered_row, HasRoom, RowTurns, RowFalls, FallBefore, HeldFalls, SamePass, NextInside};

    // Where the row of ideal `i` begins.
    fn row_at(&self, i: usize) -> usize
        requires { i < length self.now.ideals.now }
        ensures { result ≡ i * width_of self.now.rows.counts.k self.now.rows.counts.l }
    {
        i * self.rows.width()
    }

    // The first ideal from index `from` on, and before `i`, that lies inside `outer`.
    fn next_inside(&self, outer: u64, from: usize, i: usize) -> Option<usize>
        requires range { from ≤ i }
        requires listed { i ≤ length self.now.ideals.now }
        ensures { NextInside self.now.ideals.now outer from i result }
    {
        let steps = self.ideals[from..i]
            .iter()
            .position(|inner| sets::is_inside(*inner, outer))?;
        Some(from + steps)
    }

    // Whether a rating stands in one of the two cells of the most devices of the row of ideal `j`, at `from`, from which a stage could lead on. In a row that falls no other cell leads on where neither does.
    fn leads_on(&self, tables: &Tables<'_, S::Rating>, j: usize, from: usize) -> bool
        requires listed { j < length self.now.ideals.now }
        requires place { from ≡ j * width_of self.now.rows.counts.k self.now.rows.counts.l }
        requires room { HasRoom self.now tables.now }
        ensures { result ≡ leading self.now tables.now j }
    {
        let counts = self.rows.counts();
        let last = from + self.rows.width() - 1;
        // of the first kind it leads to the next line, of the second to the next cell
        let line = usize::from(counts.l) + 1;
        let first = counts.k > 0 && (j == 0 || !tables.choices[last - line].is_none());
        let second = counts.l > 0 && (j == 0 || !tables.choices[last - 1].is_none());
        first || second
    }

    // Offers the row of ideal `j`, which lies inside ideal `i`, to that of `i`: where it leads on at all, the stage between them is measured once, and each kind is asked once.
    fn offer_ideal(&mut self, tables: &mut Tables<'_, S::Rating>, i: usize, j: usize)
        requires before { j < i }
        requires listed { i < length self.old.ideals.now }
        requires inside { inside (slice_index self.old.ideals.now j) (slice_index self.old.ideals.now i) ≡ true }
        requires room { HasRoom self.old tables.old }
        requires falls { RowFalls self.old tables.old j }
        requires holds { HeldFalls self.old tables.old i }
        ensures same { SamePass self.old self.new }
        ensures lent { SameTables tables.old tables.new }
        ensures rows { RowTurns self.old tables.old tables.new i (offered_row self.old tables.old i j) }
        ensures holds { HeldFalls self.old tables.new i }
        ensures idle { leading self.old tables.old j ≡ false → self.new ≡ self.old }
    {
        let from = self.row_at(j);
        if !self.leads_on(tables, j, from) {
            return;
        }
        let inner = self.ideals[j];
        let outer = self.ideals[i];
        let figures = self.memo.figures(outer - inner);
        let x = self.problem.first.load(&figures);
        let y = self.problem.second.load(&figures);
        let to = self.row_at(i);
        self.rows.offer(tables, from, to, j as u32, &x, &y).unwrap();
    }

    // Fills the row of ideal `i`, where the rows of those before it stand.
    fn fill_row(&mut self, tables: &mut Tables<'_, S::Rating>, i: usize)
        requires listed { i < length self.old.ideals.now }
        requires room { HasRoom self.old tables.old }
        requires stand { Filled (setting_of self.old) self.old.rows.counts.k self.old.rows.counts.l i (cells_in self.old tables.old) }
        requires fall { FallBefore self.old tables.old i }
        ensures same { SamePass self.old self.new }
        ensures lent { SameTables tables.old tables.new }
        ensures rows { RowTurns self.old tables.old tables.new i (reached (setting_of self.old) i i) }
        ensures falls { RowFalls self.old tables.new i }
    {
        let at = self.row_at(i);
        self.rows.clear(tables, at).unwrap();
        let outer = self.ideals[i];
        // by index: the rows stand by it, and the choices name it
        let mut from = 0;
        while let Some(j) = self.next_inside(outer, from, i) {
            self.offer_ideal(tables, i, j);
            from = j + 1;
        }
    }

    // Fills the rows of all ideals.
    pub(crate) fn fill_rows(&mut self, tables: &mut Tables<'_, S::Rating>)
        requires { HasRoom self.old tables.old }
        ensures lent { SameTables tables.old tables.new }
        ensures rows { Passed (setting_of self.old) self.old.rows.counts.k self.old.rows.counts.l tables.old.ratings.now tables.old.choices.now tables.new.ratings.now tables.new.choices.now }
    {
        // by index, as the rows stand
        for i in 0..self.ideals.len() {
            self.fill_row(tables, i);
        }
    }
}

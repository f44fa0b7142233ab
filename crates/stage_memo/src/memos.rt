ghost use Rattle.std.specs.Prelude.{◌≡◌, ℕ, ◌<◌, ◌≤◌, slice_index_or, sum_by};
ghost use Rattle.std.specs.List.{All};
ghost use Rattle.std.specs.Option.{ForSome};
ghost use Rattle.sets.specs.Sets.{In, including, members};
ghost use Rattle.sheet.specs.Rules.{most_sum};
ghost use Rattle.sheet.specs.Nets.{row as row_of};
ghost use Rattle.sheet.specs.Figures.{figures_of};
ghost use Rattle.sheet.specs.Views.{net, sums};
ghost use Rattle.stage_memo.specs.Known.{Right};
ghost use Rattle.stage_memo.specs.Parts.{Tail};
ghost use Rattle.stage_memo.specs.Vertices.{vertex_of};
ghost use Rattle.stage_memo.specs.declared.vertices.Vertex.{Vertex};

use super::known::Known;
use super::splits::{split_highest, split_lowest};
use super::vertices::Vertex;
use sheet::{Sheet, StageFigures};
use std::array;

// A sheet and, in fixed memory, a vertex for each number, and what is known of some sets: at each number of one whose lowest operator it is, and until then of the set without operators.
// The vertices repeat what the sheet says: in an array of 64 a number below 64 needs no test of how many operators there are.
// The sheet is read when the memo is made; after that it says in contracts whose vertices these are.
#[derive(Drop)]
pub struct StageMemo<'a> {
    sheet: &'a Sheet,
    vertices: [Vertex; 64],
    known: [Known; 64],
    ghost network: { (v : ℕ) (d : Vertex) → v < 64 → slice_index_or vertices v d ≡ vertex_of (net sheet.now) v },
    ghost right: { All (Right (net sheet.now)) known },
}

impl<'a> StageMemo<'a> {
    ghost use Rattle.stage_memo.specs.Views.{memo_net};

    // A memo that knows nothing but the sheet.
    pub fn new(sheet: &'a Sheet) -> StageMemo<'a>
        ensures { memo_net result ≡ net sheet.now }
    {
        StageMemo {
            sheet,
            vertices: array::from_fn(|v| Vertex::of(sheet, v)),
            known: [Known::of_none(); 64],
        }
    }

    // The link of the number `v`.
    fn link(&self, v: usize) -> u32
        ensures { result ≡ (row_of (memo_net self.now) v).link }
    {
        self.vertices.get(v).map_or(0, |vertex| vertex.link)
    }

    // The sum of the links of a set of operators.
    fn links(&self, set: u64) -> u32
        ensures value { result ≡ sum_by (λ v. (row_of (memo_net self.now) v).link) (members set) }
        ensures bound { result ≤ most_sum }
    {
        sets::members_of(set).map(|v| self.link(v)).sum()
    }

    // What is known of a set with an operator below all of its own added.
    fn with_below(&self, above: Known, v: usize) -> Known
        requires place { v < 64 }
        requires below { (u : ℕ) → In u above.figures.mask → v < u }
        requires right { Right (memo_net self.now) above }
        ensures mask { result.figures.mask ≡ including above.figures.mask v }
        ensures right { Right (memo_net self.now) result }
    {
        let old = above.figures;
        let vertex = self.vertices[v];
        // read before the two tests, so that the compiler chooses by their answers without a jump
        let link = vertex.link;
        let mask = sets::include(old.mask, v);
        let fresh = self.links(sets::difference(vertex.predecessors, above.feeding));
        let kept = if sets::holds(above.feeding, v) {
            old.incoming - link
        } else {
            old.incoming
        };
        let outgoing = if sets::is_inside(vertex.successors, old.mask) {
            old.outgoing
        } else {
            old.outgoing + link
        };
        Known {
            figures: StageFigures {
                mask,
                acc: old.acc + vertex.acc,
                cpu: old.cpu + vertex.cpu,
                size: old.size + vertex.size,
                incoming: kept + fresh,
                outgoing,
            },
            feeding: sets::difference(sets::union(above.feeding, vertex.predecessors), mask),
        }
    }

    // What is known of a part of a set that lacks only lowest operators of it: the part without operators, if no other.
    fn part(&self, mask: u64) -> Known
        ensures tail { Tail mask result.figures.mask }
        ensures right { Right (memo_net self.now) result }
    {
        let mut rest = mask;
        // a loop: a recursion that stood for it and for the loop of `settle` was slower
        while let Some((v, others)) = split_lowest(rest) {
            let entry = self.known[v];
            if entry.figures.mask == rest {
                return entry;
            }
            rest = others;
        }
        Known::of_none()
    }

    // Comes to know a set: adds the operators that its known part lacks, each below all before.
    fn settle(&mut self, mask: u64) -> Known
        ensures mask { result.figures.mask ≡ mask }
        ensures right { Right (memo_net self.old) result }
        ensures keeps { memo_net self.new ≡ memo_net self.old }
    {
        let mut known = self.part(mask);
        let mut left = sets::difference(mask, known.figures.mask);
        // a loop, for the same reason as in `part`
        while let Some((v, others)) = split_highest(left) {
            known = self.with_below(known, v);
            self.known[v] = known;
            left = others;
        }
        known
    }

    // What is known of a set, if it is known and has an operator.
    fn entry(&self, mask: u64) -> Option<Known>
        ensures { ForSome result (λ known. (known.figures.mask ≡ mask) × Right (memo_net self.now) known) }
    {
        let (v, _) = split_lowest(mask)?;
        let known = self.known[v];
        (known.figures.mask == mask).then_some(known)
    }

    // Comes to know a set by the others beside its lowest operator.
    // Out of line: it is seldom needed, and would take registers from the loops that ask for figures.
    #[inline(never)]
    fn learn(&mut self, others: u64, v: usize)
        requires place { v < 64 }
        requires below { (u : ℕ) → In u others → v < u }
        ensures mask { (d : Known) → (slice_index_or self.new.known v d).figures.mask ≡ including others v }
        ensures keeps { memo_net self.new ≡ memo_net self.old }
    {
        let above = self.settle(others);
        self.known[v] = self.with_below(above, v);
    }

    // The figures of a set of operators as a stage. Bits that stand for no operator add nothing.
    // Of a set that is not known, the others beside its lowest operator mostly are.
    pub fn figures(&mut self, mask: u64) -> StageFigures
        ensures value { sums result ≡ figures_of (memo_net self.old) mask }
        ensures keeps { memo_net self.new ≡ memo_net self.old }
    {
        let Some((v, others)) = split_lowest(mask) else {
            return Known::of_none().figures;
        };
        if self.known[v].figures.mask != mask {
            match self.entry(others) {
                Some(above) => self.known[v] = self.with_below(above, v),
                None => self.learn(others, v),
            }
        }
        self.known[v].figures
    }
}

// Sets of operators as masks of 64 bits: bit `v` of a mask stands for operator `v`.
#![tactic(auto)]

ghost use Rattle.std.specs.Prelude.{◌≡◌, min, [], ◌∷◌, length, if◌then◌else◌, MatchOption, nat_lt};
ghost use Rattle.sets.specs.Sets.{has, inside, meeting, either, both, without, including, full, members};
ghost use Rattle.sets.specs.Laws.{LawsStand};

mod walks;

pub use walks::{Ascending, members_of};

// Whether operator `v` is in the set; none from 64 on is in any.
pub fn holds(mask: u64, v: usize) -> bool
    ensures { result ≡ has mask v }
{
    v < 64 && mask >> v & 1 == 1
}

// The set with operator `v` too; from 64 on, the set as it is.
pub fn include(mask: u64, v: usize) -> u64
    ensures { result ≡ (if nat_lt v 64 then including mask v else mask) }
{
    if v < 64 { mask | 1 << v } else { mask }
}

// The set of the operators below `n`, at most 64.
pub fn all_below(n: usize) -> u64
    ensures { result ≡ full (min n 64) }
{
    if n < 64 { (1 << n) - 1 } else { u64::MAX }
}

// The operators of either set.
pub fn union(s: u64, t: u64) -> u64
    ensures { result ≡ either s t }
{
    s | t
}

// The operators of both sets.
pub fn intersection(s: u64, t: u64) -> u64
    ensures { result ≡ both s t }
{
    s & t
}

// The operators of `s` that are not in `t`.
pub fn difference(s: u64, t: u64) -> u64
    ensures { result ≡ without s t }
{
    s & !t
}

// Whether every operator of the one set is in the other.
pub fn is_inside(inner: u64, outer: u64) -> bool
    ensures { result ≡ inside inner outer }
{
    inner & outer == inner
}

// Whether some operator is in both sets.
pub fn is_meeting(left: u64, right: u64) -> bool
    ensures { result ≡ meeting left right }
{
    left & right != 0
}

// How many operators the set has.
pub fn size(mask: u64) -> u32
    ensures { result ≡ length (members mask) }
{
    mask.count_ones()
}

// Takes the lowest operator out of the set; `None` where the set is empty.
pub fn take_lowest(mask: &mut u64) -> Option<usize>
    ensures { MatchOption result ((members mask.old ≡ []) × (mask.new ≡ mask.old)) (λ v. members mask.old ≡ v ∷ members mask.new) }
{
    let left = *mask;
    if left == 0 {
        return None;
    }
    *mask = left & (left - 1);
    Some(left.trailing_zeros() as usize)
}

// What these operations mean for the members of sets.
pub fn laws_stand()
    ensures { LawsStand }
{}

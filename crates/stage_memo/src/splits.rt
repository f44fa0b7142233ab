ghost use Rattle.std.specs.Prelude.{◌≡◌, MatchOption};
ghost use Rattle.stage_memo.specs.Ends.{IsLowest, IsHighest};

// The lowest operator of a set, and the others; `None` where the set is empty.
pub(crate) fn split_lowest(set: u64) -> Option<(usize, u64)>
    ensures { MatchOption result (set ≡ 0) (λ parts. IsLowest set parts.0 parts.1) }
{
    let v = sets::members_of(set).next()?;
    Some((v, sets::difference(set, 1 << v)))
}

// The highest operator of a set, and the others; `None` where the set is empty.
pub(crate) fn split_highest(set: u64) -> Option<(usize, u64)>
    ensures { MatchOption result (set ≡ 0) (λ parts. IsHighest set parts.0 parts.1) }
{
    if set == 0 {
        return None;
    }
    let v = 63 - set.leading_zeros() as usize;
    Some((v, set - (1 << v)))
}

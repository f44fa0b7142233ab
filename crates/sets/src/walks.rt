// The operators of a set, one after another.
ghost use Rattle.std.specs.Prelude.{◌≡◌};
ghost use Rattle.std.specs.Iterator.{YieldsFirst, item_count};
ghost use Rattle.sets.specs.Sets.{members};
ghost use Rattle.sets.specs.Walks.{members_left};

use super::take_lowest;

// A walk over the operators of a set, ascending.
#[derive(Drop)]
pub struct Ascending {
    left: u64,
}

// The operators of the set, ascending.
pub fn members_of(mask: u64) -> Ascending
    ensures { members_left result ≡ members mask }
{
    Ascending { left: mask }
}

impl Iterator for Ascending {
    type Item = usize;

    ghost next_gives = { YieldsFirst members_left };

    ghost remaining = { item_count members_left };

    fn next(&mut self) -> Option<usize> {
        take_lowest(&mut self.left)
    }
}

// The ideals of a sheet's network, listed by ascending mask.
#![tactic(auto)]

ghost use Rattle.std.specs.Prelude.{◌≡◌, ℕ, ◌^◌, ◌<◌, ◌≤◌, ◌++◌, length, take, slice_index};
ghost use Rattle.sheet.specs.Views.{net};
ghost use Rattle.ideals.specs.Cases.{Cases};
ghost use Rattle.ideals.specs.Ideals.{above, fitting, ideals, over};
ghost use Rattle.ideals.specs.Ideals.{room as room_for};
ghost use Rattle.ideals.specs.Listing.{Listing};

use sheet::Sheet;

pub const MOST_IDEALS: usize = 4096;

// Appends, to the first `count` masks of a table, each of them that holds all of `needed`, with operator `v` added; `None` where the room ends first.
fn append_above(table: &mut [u64], count: usize, v: usize, needed: u64) -> Option<usize>
    requires fits { count ≤ length table.old }
    requires few { v < 64 }
    requires small { (k : ℕ) → k < count → slice_index table.old k < 2 ^ v }
    ensures told { result ≡ fitting (length table.old) (length (take count table.old ++ above v needed (take count table.old))) }
    ensures table { table.new ≡ over (take (length table.old) (take count table.old ++ above v needed (take count table.old))) table.old }
{
    let (listed, free) = table.split_at_mut(count);
    let mut masks = listed.iter().filter(|mask| sets::is_inside(needed, **mask));
    for (added, place) in free.iter_mut().enumerate() {
        let Some(mask) = masks.next() else {
            return Some(count + added);
        };
        *place = *mask + (1 << v);
    }
    // not by `is_none` and `then_some`, which was tried: the proof goes by what is left, and they hide it
    match masks.next() {
        None => Some(count + free.len()),
        Some(_) => None,
    }
}

// Lists the ideals by ascending mask at the front of a table, as many as it takes, 4,096 at most; how many there are, or `None` where there are more.
pub fn list(sheet: &Sheet, table: &mut [u64]) -> Option<usize>
    ensures told { result ≡ fitting (room_for (length table.old)) (length (ideals (net sheet.now))) }
    ensures table { table.new ≡ over (take (room_for (length table.old)) (ideals (net sheet.now))) table.old }
    ensures means { Listing (net sheet.now) }
{
    let operators = sheet.operators();
    let most = table.len().min(MOST_IDEALS);
    let room = &mut table[..most];
    *room.first_mut()? = 0;
    let mut count = 1;
    // over the operators by number; a slice that a closure writes to, as `try_fold` would take, is not known afterwards
    for v in 0..operators {
        count = append_above(room, count, v, sheet.predecessors(v))?;
    }
    Some(count)
}

// The list for networks that a reader can list by hand.
pub fn cases_stand()
    ensures { Cases }
{}

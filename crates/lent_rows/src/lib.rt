// One row stored where the rows lie: an object's or a barrier's row, and a warp's status.
#![tactic(auto)]

ghost use Rattle.std.specs.Prelude.{◌≡◌, set};
ghost use Rattle.block_steps.specs.Changes.{with_status};

use block::{Status, Warp};

// Stores a row of a list at i, and past the last row nothing.
pub fn put_row<T: Copy>(list: &mut [T], i: usize, row: T)
    ensures { list.new ≡ set list.old i row }
{
    if i < list.len() {
        list[i] = row;
    }
}

// Gives warp i another status, and past the last row nothing.
pub fn put_status(rows: &mut [Warp], i: usize, s: Status)
    ensures { rows.new ≡ with_status rows.old i s }
{
    if i < rows.len() {
        rows[i].status = s;
    }
}

// The block changed where it lies: whoever lends it has it changed without a copy.
#![tactic(auto)]

ghost use Rattle.std.specs.Prelude.{◌≡◌, cond, ltb};
ghost use Rattle.block_steps.specs.Steps.{released_warp, released_warps};
ghost use Rattle.block_steps.specs.Changes.{changed, restatused, restored};

use block::{Barrier, Block, MOST_WARPS, Status, Warp};
use block_steps::{Change, Freed};

// The row at i after a release; rows past the last warp stay.
fn released_at(f: Freed, i: usize, row: Warp) -> Warp
    ensures { result ≡ cond (ltb i 32) (released_warp f i row) row }
{
    if MOST_WARPS as usize <= i {
        return row;
    }
    if !sets::has(f.set, i as u8) {
        return row;
    }
    Warp {
        status: Status::Ready,
        result: f.result.unwrap_or(row.result),
    }
}

// Releases the warps of a set; where it is empty, no row is looked at.
fn release(rows: &mut [Warp], f: Freed)
    ensures { rows.new ≡ released_warps f rows.old }
{
    if f.set == 0 {
        return;
    }
    for (i, row) in rows.iter_mut().enumerate() {
        *row = released_at(f, i, *row);
    }
}

// Gives a warp the status that a change gives, if it gives one.
fn put_status(rows: &mut [Warp], status: Option<(u8, Status)>)
    ensures { rows.new ≡ restatused rows.old status }
{
    if let Some((w, s)) = status {
        lent_rows::put_status(rows, usize::from(w), s);
    }
}

// Stores the barrier's row that a change gives, if it gives one.
fn put_barrier(barriers: &mut [Barrier], row: Option<(u8, Barrier)>)
    ensures { barriers.new ≡ restored barriers.old row }
{
    if let Some((k, r)) = row {
        lent_rows::put_row(barriers, usize::from(k), r);
    }
}

// Makes a change in the block.
pub fn change(b: &mut Block, c: Change)
    ensures { b.new ≡ changed b.old c }
{
    put_barrier(&mut b.barriers, c.row);
    put_status(&mut b.rows, c.status);
    release(&mut b.rows, c.freed);
}

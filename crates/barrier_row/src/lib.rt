// One barrier's row: what an arrival finds in it and makes of it, whether it completes, and its result.
#![tactic(auto)]

ghost use Rattle.std.specs.Prelude.{◌≡◌, cond};
ghost use Rattle.sets.specs.Sets.{put};
ghost use Rattle.barrier_row.specs.Rows.{count_of, bad_threads, clashes as clashes_of, arrived_row, completes as completes_of, result_of};

use block::{Barrier, Call, Form, LANE_COUNT};

// The largest number of a row or a tally, at which a sum stays.
pub const LARGEST: u32 = u32::MAX;

// A row's thread count, 0 for all.
fn count_of(t: Option<u16>) -> u16
    ensures { result ≡ count_of t }
{
    t.unwrap_or(0)
}

// The set, with warp w in it if it waits.
fn put_if(set: u32, w: u8, waits: bool) -> u32
    ensures { result ≡ cond waits (put set w) set }
{
    if waits { sets::put(set, w) } else { set }
}

// The barrier's row with warp w arrived.
pub fn arrived_row(r: Barrier, w: u8, c: Call) -> Barrier
    ensures { result ≡ arrived_row r w c }
{
    Barrier {
        form: c.form,
        threads: count_of(c.threads),
        arrived: sets::put(r.arrived, w),
        waiting: put_if(r.waiting, w, c.waits),
        trues: r.trues.saturating_add(c.lanes),
    }
}

// The result of a row that completes: the true lanes, or 1 or 0 for all true or any true; 0 of a plain one.
pub fn result_of(r: Barrier) -> u32
    ensures { result ≡ result_of r }
{
    match r.form {
        Form::Idle | Form::Plain => 0,
        Form::Popc => r.trues,
        Form::And => u32::from(r.trues == LANE_COUNT * sets::size(r.arrived)),
        Form::Or => u32::from(0 < r.trues),
    }
}

// Whether a barrier completes with row r, in a block of which the warps of alive have not exited.
pub fn completes(alive: u32, r: Barrier) -> bool
    ensures { result ≡ completes_of alive r }
{
    if r.threads == 0 {
        return sets::part(alive, r.arrived);
    }
    LANE_COUNT * sets::size(r.arrived) == u32::from(r.threads)
}

// Whether line 7 applies to the thread count, in a block of so many warps.
pub fn bad_threads(warps: u8, t: Option<u16>) -> bool
    ensures { result ≡ bad_threads warps t }
{
    let Some(n) = t else {
        return false;
    };
    let n = u32::from(n);
    (n == 0) | (n % LANE_COUNT != 0) | (LANE_COUNT * u32::from(warps) < n)
}

// Whether the barrier's row is active with another thread count or form.
pub fn clashes(r: Barrier, c: Call) -> bool
    ensures { result ≡ clashes_of r c }
{
    (r.form != Form::Idle) & ((r.threads != count_of(c.threads)) | (r.form != c.form))
}

// Whether one barrier row is sound by itself: a function to each of 01's clauses, and all of them.
#![tactic(auto)]

ghost use Rattle.std.specs.Prelude.{◌≡◌};
ghost use Rattle.block.specs.Tables.{sets_inside, waiting_arrived, idle_zero, active_arrived, active_count, count_open, all_open, reduction_waits, plain_none, row_sound};

use block::{Barrier, Form, LANE_COUNT};

// Whether the row's sets name only warps of a block of n.
fn sets_inside(n: u8, r: Barrier) -> bool
    ensures { result ≡ sets_inside n r }
{
    sets::within(n, r.arrived) & sets::within(n, r.waiting)
}

// Whether waiting is part of arrived.
fn waiting_arrived(r: Barrier) -> bool
    ensures { result ≡ waiting_arrived r }
{
    sets::part(r.waiting, r.arrived)
}

// Whether the row, if it is idle, is all zero.
#[tactic(auto, unfolding(folds::specs::Folds::every))]
fn idle_zero(r: Barrier) -> bool
    ensures { result ≡ idle_zero r }
{
    (r.form != Form::Idle) | (r == block::idle_row())
}

// Whether the row, if it is active, has an arrival.
fn active_arrived(r: Barrier) -> bool
    ensures { result ≡ active_arrived r }
{
    (r.form == Form::Idle) | (r.arrived != 0)
}

// Whether the row, if it is active, has a thread count of 0 or one that a block of n warps can give.
fn active_count(n: u8, r: Barrier) -> bool
    ensures { result ≡ active_count n r }
{
    let threads = u32::from(r.threads);
    let possible = (threads % LANE_COUNT == 0) & (threads <= LANE_COUNT * u32::from(n));
    (r.form == Form::Idle) | (threads == 0) | possible
}

// Whether the row, if it is active with a count, has fewer lanes arrived.
fn count_open(r: Barrier) -> bool
    ensures { result ≡ count_open r }
{
    let open = LANE_COUNT * sets::size(r.arrived) < u32::from(r.threads);
    (r.form == Form::Idle) | (r.threads == 0) | open
}

// Whether the row, if it is active for all threads, lacks one of live and has every arrival waiting.
fn all_open(live: u32, r: Barrier) -> bool
    ensures { result ≡ all_open live r }
{
    let open = !sets::part(live, r.arrived) & (r.waiting == r.arrived);
    (r.form == Form::Idle) | (r.threads != 0) | open
}

// Whether the row, if it is a reduction, has every arrival waiting and at most 32 true lanes per arrival.
fn reduction_waits(r: Barrier) -> bool
    ensures { result ≡ reduction_waits r }
{
    let most = LANE_COUNT * sets::size(r.arrived);
    !block::is_reduction(r.form) | ((r.waiting == r.arrived) & (r.trues <= most))
}

// Whether the row, if it is plain, has no true lanes.
fn plain_none(r: Barrier) -> bool
    ensures { result ≡ plain_none r }
{
    (r.form != Form::Plain) | (r.trues == 0)
}

// Whether a barrier row is sound in a block of n warps, of which those of live have not exited.
#[tactic(auto, unfolding(folds::specs::Folds::every))]
pub fn row_sound(n: u8, live: u32, r: Barrier) -> bool
    ensures { result ≡ row_sound n live r }
{
    sets_inside(n, r)
        & waiting_arrived(r)
        & idle_zero(r)
        & active_arrived(r)
        & active_count(n, r)
        & count_open(r)
        & all_open(live, r)
        & reduction_waits(r)
        & plain_none(r)
}

// Sync, arrive and red: lines 6 to 10 of the refusal table, and what an arrival changes in the block.
#![tactic(auto)]

ghost use Rattle.std.specs.Prelude.{◌≡◌};
ghost use Rattle.refusals.specs.Refusals.{judged};
ghost use Rattle.block_steps.specs.Steps.{call_lines};
ghost use Rattle.block_steps.specs.Changes.{arrival_moved};

use block::{BARRIER_COUNT, Barrier, Call, Form, Status};
use block_steps::Moved;
use refusals::Refusal;

// Refuses the call of warp w at barrier k, whose row is r, in a block of so many warps, by the lowest of lines 6 to 10 that applies.
#[tactic(auto, unfolding(folds::specs::Folds::lowest))]
fn refusal(warps: u8, r: Barrier, w: u8, k: u8, c: Call) -> Result<(), Refusal>
    ensures { result ≡ judged (call_lines warps r w k c) }
{
    if BARRIER_COUNT <= k {
        return Err(Refusal::NoSuchBarrier);
    }
    if barrier_row::bad_threads(warps, c.threads) {
        return Err(Refusal::BadThreads);
    }
    if c.form == Form::Idle {
        return Err(Refusal::BadSelector);
    }
    if barrier_row::clashes(r, c) {
        return Err(Refusal::Clashes);
    }
    if sets::has(r.arrived, w) {
        return Err(Refusal::AlreadyArrived);
    }
    Ok(())
}

// Sync, arrive and red: what the arrival of warp w at barrier k changes in a block of so many warps, of which those of alive have not exited, where this is the row of the barrier.
#[tactic(auto, unfolding(block_steps::specs::Changes::arrival_moved))]
pub fn arrival(
    warps: u8,
    alive: u32,
    barrier: Barrier,
    w: u8,
    k: u8,
    c: Call,
) -> Result<Moved, Refusal>
    ensures { result ≡ arrival_moved warps alive barrier w k c }
{
    refusal(warps, barrier, w, k, c)?;
    let r = barrier_row::arrived_row(barrier, w, c);
    if barrier_row::completes(alive, r) {
        return Ok(block_steps::complete(None, k, r));
    }
    if c.waits {
        return Ok(block_steps::go_on(Some((w, Status::Waiting(k))), Some((k, r))));
    }
    Ok(block_steps::go_on(None, Some((k, r))))
}

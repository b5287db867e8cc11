// Exit: the barrier that completes without the warp, and what an exit changes in the block.
#![tactic(auto)]

ghost use Rattle.std.specs.Prelude.{◌≡◌};
ghost use Rattle.block_steps.specs.Changes.{opens_for, first_opening, exiting};

use block::{BARRIER_COUNT, Barrier, Form, Status};
use block_steps::Moved;

// Whether the row is active for all threads and every warp of alive has arrived there but w, which exits.
#[tactic(auto, unfolding(folds::specs::Folds::every))]
fn opens_for(r: Barrier, alive: u32, w: u8) -> bool
    ensures { result ≡ opens_for r alive w }
{
    let there = sets::put(r.arrived, w);
    (r.form != Form::Idle) & (r.threads == 0) & sets::part(alive, there)
}

// The barrier that completes when warp w exits, where those of alive have not exited before, and 16 if none does.
#[tactic(auto, using(folds::proofs::Folds::first_none))]
pub fn opened(barriers: [Barrier; BARRIER_COUNT as usize], alive: u32, w: u8) -> u8
    ensures { result ≡ first_opening barriers alive w }
{
    for k in 0..BARRIER_COUNT {
        if opens_for(barriers[k as usize], alive, w) {
            return k;
        }
    }
    BARRIER_COUNT
}

// Exit: what the exit of warp w changes in the block, where k is the barrier that completes, 16 for none, and this the row of that barrier.
pub fn exit(barrier: Barrier, w: u8, k: u8) -> Moved
    ensures { result ≡ exiting barrier w k }
{
    if k < BARRIER_COUNT {
        return block_steps::complete(Some((w, Status::Exited)), k, barrier);
    }
    block_steps::go_on(Some((w, Status::Exited)), None)
}

// What a step changes in the block, and what every arrival and exit is made of: lines 4 and 5, and the ways a step ends.
#![tactic(auto)]

ghost use Rattle.std.specs.Prelude.{◌≡◌};
ghost use Rattle.refusals.specs.Refusals.{judged};
ghost use Rattle.block_steps.specs.Steps.{warp_lines, freed_by};
ghost use Rattle.block_steps.specs.Changes.{none_freed, no_change, going_on, completing};

use block::{Accepted, Barrier, Status, Warp};
use refusals::Refusal;

// A release: the set of warps that it makes ready, and the result that they get if it gives one.
#[derive(Clone, Copy)]
pub struct Freed {
    pub set: u32,
    pub result: Option<u32>,
}

// What a step changes in the block: the status of a warp and the row of a barrier, if it changes one, each with its number, and who is released.
#[derive(Clone, Copy)]
pub struct Change {
    pub status: Option<(u8, Status)>,
    pub row: Option<(u8, Barrier)>,
    pub freed: Freed,
}

// What an accepted step answers, and what it changes in the block.
#[derive(Clone, Copy)]
pub struct Moved {
    pub accepted: Accepted,
    pub change: Change,
}

// Refuses a step of warp w, whose row is this, in a block of so many warps, by the lowest of lines 4 and 5 that applies.
#[tactic(auto, unfolding(folds::specs::Folds::lowest))]
pub fn warp_refusal(warps: u8, row: Warp, w: u8) -> Result<(), Refusal>
    ensures { result ≡ judged (warp_lines warps row w) }
{
    if warps <= w {
        return Err(Refusal::NoSuchWarp);
    }
    if !block::is_ready(row) {
        return Err(Refusal::NotReady);
    }
    Ok(())
}

// A release of nobody.
fn none_freed() -> Freed
    ensures { result ≡ none_freed }
{
    Freed {
        set: 0,
        result: None,
    }
}

// No change.
pub fn no_change() -> Change
    ensures { result ≡ no_change }
{
    Change {
        status: None,
        row: None,
        freed: none_freed(),
    }
}

// A step that completes nothing: a warp may have another status, and a barrier another row.
pub fn go_on(status: Option<(u8, Status)>, row: Option<(u8, Barrier)>) -> Moved
    ensures { result ≡ going_on status row }
{
    Moved {
        accepted: Accepted {
            value: 0,
            done: false,
            released: 0,
        },
        change: Change {
            status,
            row,
            freed: none_freed(),
        },
    }
}

// Who a completed barrier of row r releases, with the result if it is a red's.
fn freed_by(r: Barrier) -> Freed
    ensures { result ≡ freed_by r }
{
    let result = if block::is_reduction(r.form) {
        Some(barrier_row::result_of(r))
    } else {
        None
    };
    Freed {
        set: r.waiting,
        result,
    }
}

// A step that completes barrier k, whose row is r: a warp may have another status, the barrier is idle, and who waited there is released.
pub fn complete(status: Option<(u8, Status)>, k: u8, r: Barrier) -> Moved
    ensures { result ≡ completing status k r }
{
    Moved {
        accepted: Accepted {
            value: u64::from(barrier_row::result_of(r)),
            done: true,
            released: r.waiting,
        },
        change: Change {
            status,
            row: Some((k, block::idle_row())),
            freed: freed_by(r),
        },
    }
}

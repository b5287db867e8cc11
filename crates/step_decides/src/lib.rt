// The whole step decided, on what it sees of the tables and the one object row that it names: its verdict, and what it changes.
#![tactic(auto)]

ghost use Rattle.std.specs.Prelude.{◌≡◌};
ghost use Rattle.tables.specs.Tables.{is_exit, named_barrier};
ghost use Rattle.step_decides.specs.Decides.{in_block, in_object, object_decided, pending_decided, kind_decided, decided_on};

use block::{Accepted, BARRIER_COUNT};
use block_steps::{Change, Moved};
use object::{Answer, Object};
use refusals::Refusal;
use steps::{ObjectStep, Op, Step};
use tables::{LAST_ADDRESS, OBJECT_SIZE, Seen};

// What an accepted step decides: what it answers, what it changes in the block, and the row of the object that it names.
#[derive(Clone, Copy)]
pub struct Decided {
    pub accepted: Accepted,
    pub change: Change,
    pub object: Object,
}

// A step of the block's, which leaves the row.
fn in_block(m: Moved, row: Object) -> Decided
    ensures { result ≡ in_block m row }
{
    Decided {
        accepted: m.accepted,
        change: m.change,
        object: row,
    }
}

// A step of an object's, which leaves the block: what it answers and leaves of the row.
fn in_object(a: Answer) -> Decided
    ensures { result ≡ in_object a }
{
    Decided {
        accepted: Accepted {
            value: a.value,
            done: a.done,
            released: 0,
        },
        change: block_steps::no_change(),
        object: a.row,
    }
}

// An object step at address a: line 11, or what the object answers.
fn on_object(row: Object, a: u16, o: ObjectStep) -> Result<Decided, Refusal>
    ensures { result ≡ object_decided row a o }
{
    if (a % OBJECT_SIZE != 0) | (LAST_ADDRESS < a) {
        return Err(Refusal::BadAddress);
    }
    let slot = (a / OBJECT_SIZE) as u8;
    let answer = object_steps::step(row, slot, step_asks::act_of(o))?;
    Ok(in_object(answer))
}

// A pending count: line 19, or the count.
#[tactic(auto, unfolding(folds::specs::Folds::lowest, crate::specs::Decides::pending_decided))]
fn pending(row: Object, token: u64) -> Result<Decided, Refusal>
    ensures { result ≡ pending_decided row token }
{
    let count = object::pending_count(token)?;
    Ok(in_object(Answer::not_done(row, count)))
}

// Whether a step is an exit.
pub fn is_exit(op: Op) -> bool
    ensures { result ≡ is_exit op }
{
    matches!(op, Op::Exit)
}

// The barrier that a step names; 16, which there is not, where it names none.
pub fn named_barrier(op: Op) -> u8
    ensures { result ≡ named_barrier op }
{
    match op {
        Op::Exit => BARRIER_COUNT,
        Op::Barrier(k, _) => k,
        Op::Object(_, _) => BARRIER_COUNT,
        Op::PendingCount(_) => BARRIER_COUNT,
    }
}

// A step past lines 3, 4 and 5: the lowest line of its kind, or where none applies what it does.
fn of_kind(seen: Seen, row: Object, w: u8, op: Op) -> Result<Decided, Refusal>
    ensures { result ≡ kind_decided seen row (record { warp = w; op = op }) }
{
    let barrier = seen.barrier;
    match op {
        Op::Exit => Ok(in_block(block_exit::exit(barrier, w, seen.at), row)),
        Op::Barrier(k, s) => {
            let call = step_asks::call_of(s);
            let moved = block_arrive::arrival(seen.warps, seen.live, barrier, w, k, call)?;
            Ok(in_block(moved, row))
        }
        Op::Object(a, o) => on_object(row, a, o),
        Op::PendingCount(t) => pending(row, t),
    }
}

// The whole step, on what it sees of the tables and the row of the object that it names: what it answers, the row, and what it changes in the block. It is refused by the lowest line of the table that applies: 3, 4 and 5 for every kind, then those of its kind. Of a block that is seen so it leaves what the step over whole tables leaves (`decision_seen`).
pub fn decide(seen: Seen, row: Object, step: Step) -> Result<Decided, Refusal>
    ensures { result ≡ decided_on seen row step }
{
    if !seen.sound {
        return Err(Refusal::Unsound);
    }
    block_steps::warp_refusal(seen.warps, seen.warp, step.warp)?;
    of_kind(seen, row, step.warp, step.op)
}

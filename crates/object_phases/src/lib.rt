// What changes a phase: arrivals, drops, expects and completes on one object's row.
#![tactic(auto)]

ghost use Rattle.std.specs.Prelude.{◌≡◌, ◌<◌, ◌^◌, true, cond, eqb, ◌+ℤ◌, Ok, Err};
ghost use Rattle.std.specs.Int.Signed.{mag};
ghost use Rattle.object.specs.Row.{last_phase, outside, with_tx, arrives, both_zero, next_phase, not_done, bad_arrival, step_row};

use object::{Act, Answer, LAST_PHASE, Object};
use refusals::Refusal;

// The row with transactions added, or taken off where they are below 0; or that the count would leave its range.
fn moved(o: Object, by: i64) -> Result<Object, Refusal>
    requires { mag by < 2 ^ 32 }
    ensures { result ≡ cond (outside (o.tx +ℤ by)) (Err Refusal.OutOfRange) (Ok (with_tx o (o.tx +ℤ by))) }
{
    let tx = i64::from(o.tx) + by;
    if object::outside(tx) {
        return Err(Refusal::OutOfRange);
    }
    Ok(Object { tx: tx as i32, ..o })
}

// The row with the count off pending, and off expected where it drops; or that the count is bad.
fn arrived(o: Object, count: u32, drop: bool) -> Result<Object, Refusal>
    ensures { result ≡ cond (bad_arrival o count drop) (Err Refusal.BadCount) (Ok (arrives o count drop)) }
{
    if (count == 0) | (o.pending < count) | (drop & (o.expected <= count)) {
        return Err(Refusal::BadCount);
    }
    let dropped = if drop { count } else { 0 };
    Ok(Object {
        expected: o.expected - dropped,
        pending: o.pending - count,
        ..o
    })
}

// After an arrival or a complete: the phase completes if pending and transactions are both 0; a noComplete step can't, nor can the last phase.
fn settle(o: Object, quiet: bool, value: u64) -> Result<Answer, Refusal>
    ensures { result ≡
        cond (both_zero o)
        (cond quiet (Err Refusal.EndsQuietly) (cond (eqb o.phase last_phase) (Err Refusal.EndsLast) (Ok (record { row = next_phase o; value = value; done = true }))))
        (Ok (not_done o value)) }
{
    if (o.pending != 0) | (o.tx != 0) {
        return Ok(Answer::not_done(o, value));
    }
    if quiet {
        return Err(Refusal::EndsQuietly);
    }
    let phase = o.phase;
    if phase == LAST_PHASE {
        return Err(Refusal::EndsLast);
    }
    let row = Object {
        pending: o.expected,
        phase: phase + 1,
        seen: false,
        ..o
    };
    Ok(Answer {
        row,
        value,
        done: true,
    })
}

// Every arrival and drop: the count, whether it drops, the attached expectation (0 where there is none), whether it is a noComplete.
#[tactic(auto, unfolding(object::specs::Row::step_row, folds::specs::Folds::lowest))]
pub fn arrive(
    o: Object,
    slot: u8,
    count: u32,
    drop: bool,
    expects: u32,
    quiet: bool,
) -> Result<Answer, Refusal>
    ensures { result ≡ step_row o slot (Act.Arrive count drop expects quiet) }
{
    if !o.live {
        return Err(Refusal::NotLive);
    }
    let left = arrived(o, count, drop)?;
    let row = moved(left, i64::from(expects))?;
    if !o.seen {
        return Err(Refusal::Unseen);
    }
    settle(row, quiet, object::token(o, slot))
}

// A lone expect.
#[tactic(auto, unfolding(object::specs::Row::step_row, folds::specs::Folds::lowest))]
pub fn expect(o: Object, x: u32) -> Result<Answer, Refusal>
    ensures { result ≡ step_row o 0 (Act.Expect x) }
{
    if !o.live {
        return Err(Refusal::NotLive);
    }
    let row = moved(o, i64::from(x))?;
    Ok(Answer::not_done(row, 0))
}

// A complete.
#[tactic(auto, unfolding(object::specs::Row::step_row, folds::specs::Folds::lowest))]
pub fn complete(o: Object, x: u32) -> Result<Answer, Refusal>
    ensures { result ≡ step_row o 0 (Act.Complete x) }
{
    if !o.live {
        return Err(Refusal::NotLive);
    }
    let row = moved(o, -i64::from(x))?;
    settle(row, false, 0)
}

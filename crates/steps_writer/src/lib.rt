// A step's bytes, written.
#![tactic(auto)]

ghost use Rattle.std.specs.Prelude.{◌≡◌, ◌+◌, ◌≤◌, length};
ghost use Rattle.std.proofs.lemmas.List.Edits.{sets};
ghost use Rattle.fields.specs.Row.{total, encode};
ghost use Rattle.steps.specs.Kind.{byte_of};
ghost use Rattle.steps.specs.Step.{row, barrier_kind, object_kind, kind_of, barrier_values, object_values, values_of, write_at, written};

use refusals::Refusal;
use steps::kinds::Kind;
use steps::{BarrierStep, ObjectStep, Op, Step, lengths};

// A step's kind, and its row of numbers: the warp, and up to four fields more.
#[derive(Clone, Copy)]
struct Parts(Kind, [u64; 5]);

// The parts of a named-barrier step.
fn barrier_parts(w: u64, x: u64, b: BarrierStep) -> Parts
    ensures { (byte_of result.0 ≡ barrier_kind b) × (result.1 ≡ barrier_values w x b) }
{
    match b {
        BarrierStep::SyncAll => Parts(Kind::SyncAll, [w, x, 0, 0, 0]),
        BarrierStep::Sync(t) => Parts(Kind::Sync, [w, x, u64::from(t), 0, 0]),
        BarrierStep::Arrive(t) => Parts(Kind::BarrierArrive, [w, x, u64::from(t), 0, 0]),
        BarrierStep::RedAll { selector, mask } => Parts(
            Kind::RedAll,
            [w, x, u64::from(selector), u64::from(mask), 0],
        ),
        BarrierStep::Red {
            selector,
            threads,
            mask,
        } => Parts(
            Kind::Red,
            [
                w,
                x,
                u64::from(selector),
                u64::from(threads),
                u64::from(mask),
            ],
        ),
    }
}

// The parts of an object step.
fn object_parts(w: u64, x: u64, o: ObjectStep) -> Parts
    ensures { (byte_of result.0 ≡ object_kind o) × (result.1 ≡ object_values w x o) }
{
    let (kind, operand) = match o {
        ObjectStep::Init(n) => (Kind::Init, u64::from(n)),
        ObjectStep::Inval => (Kind::Inval, 0),
        ObjectStep::Arrive(n) => (Kind::Arrive, u64::from(n)),
        ObjectStep::ArriveNoComplete(n) => (Kind::ArriveNoComplete, u64::from(n)),
        ObjectStep::ArriveExpect(n) => (Kind::ArriveExpect, u64::from(n)),
        ObjectStep::Drop(n) => (Kind::Drop, u64::from(n)),
        ObjectStep::DropNoComplete(n) => (Kind::DropNoComplete, u64::from(n)),
        ObjectStep::DropExpect(n) => (Kind::DropExpect, u64::from(n)),
        ObjectStep::Expect(n) => (Kind::Expect, u64::from(n)),
        ObjectStep::Complete(n) => (Kind::Complete, u64::from(n)),
        ObjectStep::TestToken(token) => (Kind::TestToken, token),
        ObjectStep::TestParity(p) => (Kind::TestParity, u64::from(p)),
    };
    Parts(kind, [w, x, operand, 0, 0])
}

// The parts of a step.
fn parts_of(step: Step) -> Parts
    ensures { (byte_of result.0 ≡ kind_of step) × (result.1 ≡ values_of step) }
{
    let w = u64::from(step.warp);
    match step.op {
        Op::Exit => Parts(Kind::Exit, [w, 0, 0, 0, 0]),
        Op::Barrier(x, b) => barrier_parts(w, u64::from(x), b),
        Op::Object(x, o) => object_parts(w, u64::from(x), o),
        Op::PendingCount(n) => Parts(Kind::PendingCount, [w, n, 0, 0, 0]),
    }
}

// The widths of a kind's fields: the warp's, and up to four more.
fn widths_of(kind: Kind) -> [usize; 5]
    ensures { result ≡ row (byte_of kind) }
{
    match kind {
        Kind::Exit => [1, 0, 0, 0, 0],
        Kind::SyncAll => [1, 1, 0, 0, 0],
        Kind::Sync | Kind::BarrierArrive => [1, 1, 2, 0, 0],
        Kind::RedAll => [1, 1, 1, 4, 0],
        Kind::Red => [1, 1, 1, 2, 4],
        Kind::Inval => [1, 2, 0, 0, 0],
        Kind::TestToken => [1, 2, 8, 0, 0],
        Kind::TestParity => [1, 2, 1, 0, 0],
        Kind::PendingCount => [1, 8, 0, 0, 0],
        Kind::Init
        | Kind::Arrive
        | Kind::ArriveNoComplete
        | Kind::ArriveExpect
        | Kind::Drop
        | Kind::DropNoComplete
        | Kind::DropExpect
        | Kind::Expect
        | Kind::Complete => [1, 2, 4, 0, 0],
    }
}

// A row of numbers, each at its width, one after the other from at on.
fn put_row(out: &mut [u8], at: usize, widths: [usize; 5], values: [u64; 5])
    requires { at + total widths ≤ length out.old }
    ensures { out.new ≡ sets out.old at (encode widths values) }
{
    let mut place = at;
    for (i, width) in widths.iter().enumerate() {
        fields_writer::put(&mut *out, place, *width, values[i]);
        place += *width;
    }
}

// The bytes of a step, laid in at a place, and the place after them; where they do not fit, nothing changes.
#[tactic(auto, using(crate::proofs::Room::short))]
pub fn write(step: Step, out: &mut [u8], at: usize) -> Result<usize, Refusal>
    ensures { (result ≡ write_at step out.old at) × (out.new ≡ written step out.old at) }
{
    let Parts(kind, values) = parts_of(step);
    let byte = u8::from(kind);
    let n = lengths::length_of(byte);
    if out.len() <= at {
        return Err(Refusal::TooFewBytes);
    }
    let body = at + 1;
    if out.len() - body < n {
        return Err(Refusal::TooFewBytes);
    }
    out[at] = byte;
    put_row(&mut *out, body, widths_of(kind), values);
    Ok(body + n)
}

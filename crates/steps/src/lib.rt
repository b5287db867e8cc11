// A step, its bytes read, and the table of body lengths; what writing it promises is stated here too.
#![tactic(auto)]

ghost use Rattle.std.specs.Prelude.{◌≡◌};
ghost use Rattle.fields.specs.Row.{decode};
ghost use Rattle.steps.specs.Kind.{byte_of};
ghost use Rattle.steps.specs.Step.{row, op_of, step_of, read_at};

use fields::number;
use kinds::Kind;
use refusals::Refusal;

pub mod kinds;
pub mod lengths;

// What a warp does at a named barrier.
#[derive(Clone, Copy)]
pub enum BarrierStep {
    SyncAll,
    Sync(u16),
    Arrive(u16),
    RedAll {
        selector: u8,
        mask: u32,
    },
    Red {
        selector: u8,
        threads: u16,
        mask: u32,
    },
}

// What a warp does with an mbarrier object.
#[derive(Clone, Copy)]
pub enum ObjectStep {
    Init(u32),
    Inval,
    Arrive(u32),
    ArriveNoComplete(u32),
    ArriveExpect(u32),
    Drop(u32),
    DropNoComplete(u32),
    DropExpect(u32),
    Expect(u32),
    Complete(u32),
    TestToken(u64),
    TestParity(u8),
}

// The nineteen kinds: a barrier step with its barrier, an object step with its address, a pending count with its token.
#[derive(Clone, Copy)]
pub enum Op {
    Exit,
    Barrier(u8, BarrierStep),
    Object(u16, ObjectStep),
    PendingCount(u64),
}

// One decoded instruction of one warp.
#[derive(Clone, Copy)]
pub struct Step {
    pub warp: u8,
    pub op: Op,
}

// The place in a trace at which the next step is read.
#[derive(Clone, Copy)]
pub struct Cursor {
    pub at: usize,
}

// What a kind says. Its body's fields stand behind the warp, each at its place, and no others are read.
#[tactic(auto, using(crate::proofs::Fields::onward))]
fn op_of(kind: Kind, body: &[u8]) -> Op
    ensures { result ≡ op_of (byte_of kind) (decode (row (byte_of kind)) body.now) }
{
    match kind {
        Kind::Exit => Op::Exit,
        Kind::SyncAll => Op::Barrier(number(body, 1), BarrierStep::SyncAll),
        Kind::Sync => Op::Barrier(number(body, 1), BarrierStep::Sync(number(body, 2))),
        Kind::BarrierArrive => Op::Barrier(number(body, 1), BarrierStep::Arrive(number(body, 2))),
        Kind::RedAll => Op::Barrier(
            number(body, 1),
            BarrierStep::RedAll {
                selector: number(body, 2),
                mask: number(body, 3),
            },
        ),
        Kind::Red => Op::Barrier(
            number(body, 1),
            BarrierStep::Red {
                selector: number(body, 2),
                threads: number(body, 3),
                mask: number(body, 5),
            },
        ),
        Kind::Init => Op::Object(number(body, 1), ObjectStep::Init(number(body, 3))),
        Kind::Inval => Op::Object(number(body, 1), ObjectStep::Inval),
        Kind::Arrive => Op::Object(number(body, 1), ObjectStep::Arrive(number(body, 3))),
        Kind::ArriveNoComplete => Op::Object(
            number(body, 1),
            ObjectStep::ArriveNoComplete(number(body, 3)),
        ),
        Kind::ArriveExpect => Op::Object(
            number(body, 1),
            ObjectStep::ArriveExpect(number(body, 3)),
        ),
        Kind::Drop => Op::Object(number(body, 1), ObjectStep::Drop(number(body, 3))),
        Kind::DropExpect => Op::Object(number(body, 1), ObjectStep::DropExpect(number(body, 3))),
        Kind::Expect => Op::Object(number(body, 1), ObjectStep::Expect(number(body, 3))),
        Kind::Complete => Op::Object(number(body, 1), ObjectStep::Complete(number(body, 3))),
        Kind::TestToken => Op::Object(number(body, 1), ObjectStep::TestToken(number(body, 3))),
        Kind::TestParity => Op::Object(number(body, 1), ObjectStep::TestParity(number(body, 3))),
        Kind::PendingCount => Op::PendingCount(number(body, 1)),
        Kind::DropNoComplete => Op::Object(
            number(body, 1),
            ObjectStep::DropNoComplete(number(body, 3)),
        ),
    }
}

// The step that a kind and its body say.
fn step_of(kind: Kind, body: &[u8]) -> Step
    ensures { result ≡ step_of (byte_of kind) (decode (row (byte_of kind)) body.now) }
{
    Step {
        warp: number(body, 0),
        op: op_of(kind, body),
    }
}

impl Cursor {
    // The step at the cursor with the cursor after it, or the refusal: an unknown kind, or too few bytes.
    pub fn read(self, s: &[u8]) -> Result<(Step, Cursor), Refusal>
        ensures { result ≡ read_at s.now self.at }
    {
        let [byte, body @ ..] = fields::rest(s, self.at) else {
            return Err(Refusal::TooFewBytes);
        };
        let kind = Kind::try_from(*byte)?;
        let n = lengths::length_of(*byte);
        if body.len() < n {
            return Err(Refusal::TooFewBytes);
        }
        Ok((
            step_of(kind, body),
            Cursor {
                at: self.at + 1 + n,
            },
        ))
    }
}

// What a step sees of the tables and what it leaves, the object that it names, and the tally.
#![tactic(auto)]

ghost use Rattle.std.specs.Prelude.{◌≡◌};
ghost use Rattle.tables.specs.Tables.{slot_of, tallied};

use block::{Barrier, Block, Verdict, Warp};
use object::Object;
use steps::Op;

// An object has 8 bytes, and the last is at 504.
pub const OBJECT_SIZE: u16 = 8;

pub const LAST_ADDRESS: u16 = 504;

// What a step sees of the tables: whether they are sound; how many warps the block has, and which of them have not exited; the row of its warp; the barrier whose row it may change, 16 for none, and that row.
#[derive(Clone, Copy)]
pub struct Seen {
    pub sound: bool,
    pub warps: u8,
    pub live: u32,
    pub warp: Warp,
    pub at: u8,
    pub barrier: Barrier,
}

// What a step leaves: its verdict, the block, and the row of the object that it names.
#[derive(Clone, Copy)]
pub struct Taken {
    pub verdict: Verdict,
    pub block: Block,
    pub object: Object,
}

// How many steps were accepted and refused.
#[derive(Clone, Copy)]
pub struct Tally {
    pub accepted: u32,
    pub refused: u32,
}

// The slot of the object that a step names; 64, which no object has, where it names none.
pub fn slot_of(op: Op) -> usize
    ensures { result ≡ slot_of op }
{
    match op {
        Op::Exit => 64,
        Op::Barrier(_, _) => 64,
        Op::Object(a, _) => (a / OBJECT_SIZE) as usize,
        Op::PendingCount(_) => 64,
    }
}

// The tally after a step with this verdict: one more; a number at 4,294,967,295 stays there.
pub fn add(t: Tally, v: Verdict) -> Tally
    ensures { result ≡ tallied t v }
{
    match v {
        Err(_) => Tally {
            refused: t.refused.saturating_add(1),
            ..t
        },
        Ok(_) => Tally {
            accepted: t.accepted.saturating_add(1),
            ..t
        },
    }
}

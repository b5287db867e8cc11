// The block: its warps and its sixteen named barriers, by value, and what one row of a warp says.
#![tactic(auto)]

ghost use Rattle.std.specs.Prelude.{◌≡◌, ◌&&◌, eqb};
ghost use Rattle.block.specs.Tables.{form_number, is_reduction, is_ready, fresh_warp, idle, fresh_block};

use refusals::Refusal;

// A block has at most 32 warps.
pub const MOST_WARPS: u8 = 32;

// A warp has 32 lanes.
pub const LANE_COUNT: u32 = 32;

// There are sixteen named barriers.
pub const BARRIER_COUNT: u8 = 16;

#[derive(Clone, Copy, PartialEq, Eq, Debug)]
pub enum Status {
    Ready,
    Waiting(u8),
    Exited,
}

#[derive(Clone, Copy, PartialEq, Eq, Debug)]
pub struct Warp {
    pub status: Status,
    pub result: u32,
}

#[derive(Clone, Copy, PartialEq, Eq, Debug)]
pub enum Form {
    Idle,
    Plain,
    Popc,
    And,
    Or,
}

// A barrier's row. Thread count 0 means all.
#[derive(Clone, Copy, PartialEq, Eq, Debug)]
pub struct Barrier {
    pub form: Form,
    pub threads: u16,
    pub arrived: u32,
    pub waiting: u32,
    pub trues: u32,
}

#[derive(Clone, Copy, PartialEq, Eq, Debug)]
pub struct Block {
    pub warps: u8,
    pub rows: [Warp; MOST_WARPS as usize],
    pub barriers: [Barrier; BARRIER_COUNT as usize],
}

// What a named-barrier step asks for: its form (Idle where its selector names none), its thread count (None for all), whether it waits, its true lanes.
#[derive(Clone, Copy, PartialEq, Eq, Debug)]
pub struct Call {
    pub form: Form,
    pub threads: Option<u16>,
    pub waits: bool,
    pub lanes: u32,
}

// What an accepted step answers: its value, whether it completes a barrier or a phase, and the warps that it releases.
#[derive(Clone, Copy, Debug, PartialEq, Eq)]
pub struct Accepted {
    pub value: u64,
    pub done: bool,
    pub released: u32,
}

// What a step answers.
pub type Verdict = Result<Accepted, Refusal>;

// A verdict, and the block after the step.
#[derive(Clone, Copy)]
pub struct Turn {
    pub verdict: Verdict,
    pub block: Block,
}

// A ready warp's row, with result 0.
pub fn fresh_warp() -> Warp
    ensures { result ≡ fresh_warp }
{
    Warp {
        status: Status::Ready,
        result: 0,
    }
}

// An idle barrier's row.
pub fn idle_row() -> Barrier
    ensures { result ≡ idle }
{
    Barrier {
        form: Form::Idle,
        threads: 0,
        arrived: 0,
        waiting: 0,
        trues: 0,
    }
}

// The block of so many warps, each ready with result 0, and of idle barriers.
pub fn fresh(warps: u8) -> Block
    ensures { result ≡ fresh_block warps }
{
    Block {
        warps,
        rows: [fresh_warp(); MOST_WARPS as usize],
        barriers: [idle_row(); BARRIER_COUNT as usize],
    }
}

// The number of a form, in their order.
pub fn form_number(f: Form) -> u8
    ensures { result ≡ form_number f }
{
    f as u8
}

// Whether the form is popc, and, or.
pub fn is_reduction(f: Form) -> bool
    ensures { result ≡ is_reduction f }
{
    1 < form_number(f)
}

// Whether the warp is ready.
pub fn is_ready(row: Warp) -> bool
    ensures { result ≡ is_ready row.status }
{
    row.status == Status::Ready
}

// Whether the warp is ready with result 0, as the rows past the number of warps must be.
pub fn is_fresh(row: Warp) -> bool
    ensures { result ≡ is_ready row.status && eqb row.result 0 }
{
    is_ready(row) & (row.result == 0)
}

// What a step sees of a block that the caller lends: the rows that it names are copied from where they lie, and all sixteen barriers for an exit alone.
#![tactic(auto)]

ghost use Rattle.std.specs.Prelude.{◌≡◌};
ghost use Rattle.tables.specs.Tables.{barrier_for, seen_of};

use block::Block;
use steps::Step;
use tables::Seen;

// The barrier whose row the step may change, where those of live have not exited.
fn barrier_for(b: &Block, live: u32, s: Step) -> u8
    ensures { result ≡ barrier_for live b.now s.warp s.op }
{
    if !step_decides::is_exit(s.op) {
        return step_decides::named_barrier(s.op);
    }
    block_exit::opened(b.barriers, live, s.warp)
}

// What the step sees of the block of tables that are sound or not, of whose warps those of live have not exited; the block stays as it is.
pub fn see(b: &mut Block, sound: bool, live: u32, s: Step) -> Seen
    ensures { (result ≡ seen_of sound live b.old s) × (b.new ≡ b.old) }
{
    let at = barrier_for(b, live, s);
    let warp = b
        .rows
        .get(usize::from(s.warp))
        .copied()
        .unwrap_or(block::fresh_warp());
    let barrier = b
        .barriers
        .get(usize::from(at))
        .copied()
        .unwrap_or(block::idle_row());
    Seen {
        sound,
        warps: b.warps,
        live,
        warp,
        at,
        barrier,
    }
}

// Whether a block's tables are sound, in the form that document 01 names: every barrier row against every warp's status, the first disagreement ends the check.
#![tactic(auto)]

ghost use Rattle.std.specs.Prelude.{◌≡◌};
ghost use Rattle.block.specs.Tables.{is_exited, waits_at, waits_placed, warp_sound, live_of, warps_sound, rows_sound, agreeing, sound_block};

use block::{BARRIER_COUNT, Block, MOST_WARPS, Status, Warp};

// Whether the warp has exited.
fn is_exited(row: Warp) -> bool
    ensures { result ≡ is_exited row.status }
{
    row.status == Status::Exited
}

// Whether the warp waits at barrier k.
fn waits_at(row: Warp, k: u8) -> bool
    ensures { result ≡ waits_at row.status k }
{
    row.status == Status::Waiting(k)
}

// Whether the warp, if it waits, waits at a barrier that there is.
fn waits_placed(row: Warp) -> bool
    ensures { result ≡ waits_placed row.status }
{
    !matches!(row.status, Status::Waiting(at) if BARRIER_COUNT <= at)
}

// Whether row w of the warps of a block of n is sound.
fn warp_sound(n: u8, w: u8, row: Warp) -> bool
    ensures { result ≡ warp_sound n w row }
{
    ((w < n) | block::is_fresh(row)) & waits_placed(row)
}

// The warps of the block that have not exited.
pub fn live(b: Block) -> u32
    ensures { result ≡ live_of b }
{
    let mut set = 0;
    for w in 0..MOST_WARPS {
        let here = (w < b.warps) & !is_exited(b.rows[w as usize]);
        if here {
            set = sets::put(set, w);
        }
    }
    set
}

// Whether every warp row is sound.
#[tactic(auto, using(folds::proofs::Folds::all_none, folds::proofs::Folds::all_more))]
fn warps_sound(b: Block) -> bool
    ensures { result ≡ warps_sound b }
{
    for w in 0..MOST_WARPS {
        if !warp_sound(b.warps, w, b.rows[w as usize]) {
            return false;
        }
    }
    true
}

// Whether every barrier row is sound.
#[tactic(auto, using(folds::proofs::Folds::all_none, folds::proofs::Folds::all_more))]
fn rows_sound(b: Block) -> bool
    ensures { result ≡ rows_sound b }
{
    let alive = live(b);
    for k in 0..BARRIER_COUNT {
        if !barrier_sound::row_sound(b.warps, alive, b.barriers[k as usize]) {
            return false;
        }
    }
    true
}

// Whether every barrier row's waiting set has exactly the warps that wait there; the first disagreement ends the check.
fn agrees(b: Block) -> bool
    ensures { result ≡ agreeing b }
{
    let mut ok = true;
    'rows: for k in 0..BARRIER_COUNT {
        let barrier = b.barriers[k as usize];
        for w in 0..MOST_WARPS {
            ok = sets::has(barrier.waiting, w) == waits_at(b.rows[w as usize], k);
            if !ok {
                break 'rows;
            }
        }
    }
    ok
}

// Whether the block's tables are sound.
#[tactic(auto, unfolding(block::specs::Tables::sound_block, folds::specs::Folds::every))]
pub fn sound(b: Block) -> bool
    ensures { result ≡ sound_block b }
{
    let counted = (1 <= b.warps) & (b.warps <= MOST_WARPS);
    counted && warps_sound(b) && rows_sound(b) && agrees(b)
}

// Sets of warps as u32 masks, warp 0 lowest: has, put, less, part, within, size. Each takes any set and any warp.
#![tactic(auto)]

ghost use Rattle.std.specs.Prelude.{◌≡◌, ◌≤◌, ◌-◌, ◌^◌, cond, ltb, min};
ghost use Rattle.sets.specs.Sets.{has as has_of, put as put_of, less as less_of, part as part_of, within as within_of, size as size_of};

// The set of warp w alone; above 31 there is no place, and the set is empty.
fn alone(w: u8) -> u32
    ensures { result ≡ cond (ltb w 32) (2 ^ w) 0 }
{
    if w < 32 { 1 << w } else { 0 }
}

// Whether the set has warp w.
pub fn has(set: u32, w: u8) -> bool
    ensures { result ≡ has_of set w }
{
    set & alone(w) != 0
}

// The set with warp w in it; above 31 there is no place, and the set stays.
pub fn put(set: u32, w: u8) -> u32
    ensures { result ≡ put_of set w }
{
    set | alone(w)
}

// The set without warp w.
pub fn less(set: u32, w: u8) -> u32
    ensures { result ≡ less_of set w }
{
    set & !alone(w)
}

// Whether each warp of a is one of b.
pub fn part(a: u32, b: u32) -> bool
    ensures { result ≡ part_of a b }
{
    a & b == a
}

// The set of the warps below n.
pub fn below(n: u8) -> u32
    ensures { result ≡ 2 ^ min n 32 - 1 }
{
    if n < 32 { (1 << n) - 1 } else { u32::MAX }
}

// Whether the set names only warps below n.
pub fn within(n: u8, set: u32) -> bool
    ensures { result ≡ within_of n set }
{
    part(set, below(n))
}

// How many warps a set has, or how many lanes of a mask are true.
pub fn size(set: u32) -> u32
    ensures counts { result ≡ size_of set }
    ensures at_most { result ≤ 32 }
{
    u32::count_ones(set)
}

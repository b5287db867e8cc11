// Little-endian numbers in a slice: one reader for the four widths that steps have, each in the type that just holds it.
#![tactic(auto)]

ghost use Rattle.std.specs.Prelude.{◌≡◌, ℕ, ◌%◌, ◌≤◌, ◌<◌, drop, get_or};
ghost use Rattle.std.proofs.Common.{rules};
ghost use Rattle.fields.specs.Num.{num, room};

// A number that a field of one, two, four or eight bytes holds.
pub trait Field {
    // Its value.
    ghost value: { Self → ℕ };

    // How many bytes hold it.
    ghost WIDTH: { ℕ };

    const WIDTH: usize;

    // The number in the lowest bytes of v.
    fn low(v: u64) -> Self
        ensures { value result ≡ v % room WIDTH };

    // No field is wider than eight bytes.
    ghost narrow: { WIDTH ≤ 8 };
}

impl Field for u8 {
    ghost value = { λ v. v };

    ghost WIDTH = { 1 };

    const WIDTH: usize = 1;

    fn low(v: u64) -> u8 {
        (v % 256) as u8
    }

    ghost narrow = { Prim.search rules };
}

impl Field for u16 {
    ghost value = { λ v. v };

    ghost WIDTH = { 2 };

    const WIDTH: usize = 2;

    fn low(v: u64) -> u16 {
        (v % 65_536) as u16
    }

    ghost narrow = { Prim.search rules };
}

impl Field for u32 {
    ghost value = { λ v. v };

    ghost WIDTH = { 4 };

    const WIDTH: usize = 4;

    fn low(v: u64) -> u32 {
        (v % 4_294_967_296) as u32
    }

    ghost narrow = { Prim.search rules };
}

impl Field for u64 {
    ghost value = { λ v. v };

    ghost WIDTH = { 8 };

    const WIDTH: usize = 8;

    fn low(v: u64) -> u64 {
        v
    }

    ghost narrow = { Prim.search rules };
}

// The byte at a place, 0 past the end.
fn byte(s: &[u8], at: usize) -> u8
    ensures { result ≡ get_or s.now at 0 }
{
    s.get(at).copied().unwrap_or(0)
}

// The number in the first width bytes; bytes past the end count as 0.
fn number_in(s: &[u8], width: usize) -> u64
    requires { width ≤ 8 }
    ensures { (result ≡ num width s.now) × (result < room width) }
{
    let mut v = 0;
    for i in (0..width).rev() {
        v = v * 256 + u64::from(byte(s, i));
    }
    v
}

// The bytes from a place on; past the end there is none.
pub fn rest(s: &[u8], at: usize) -> &[u8]
    ensures { result.now ≡ drop at s.now }
{
    s.get(at..).unwrap_or(&[])
}

// The number that stands from at on; bytes past the end count as 0.
pub fn number<N: Field>(s: &[u8], at: usize) -> N
    ensures { N.value result ≡ num N.WIDTH (drop at s.now) }
{
    N::low(number_in(rest(s, at), N::WIDTH))
}

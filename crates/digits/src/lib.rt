// Numbers and sets of warps as digits, laid into a buffer that the caller lends.
#![tactic(auto)]

ghost use Rattle.std.specs.Prelude.{◌≡◌, ◌+◌, ◌≤◌, ◌<◌, leb, length};
ghost use Rattle.fields.specs.Num.{laid};
ghost use Rattle.io.specs.Digits.{last_digits, hex_digit_ascii as glyph_of};
ghost use Rattle.digits.specs.Digits.{places, decimal, warps};

// Whether k bytes from at on lie in a buffer of so many.
fn fits(len: usize, at: usize, k: usize) -> bool
    ensures { result ≡ leb (at + k) len }
{
    at <= len && k <= len - at
}

// Lays bytes in from at on; where they do not fit, nothing changes.
pub fn put(out: &mut [u8], at: usize, from: &[u8])
    ensures { out.new ≡ laid out.old at from.now }
{
    if !fits(out.len(), at, from.len()) {
        return;
    }
    let end = at + from.len();
    out[at..end].copy_from_slice(from);
}

// The ASCII code of a digit.
fn glyph(d: u64) -> u8
    requires { d < 16 }
    ensures { result ≡ glyph_of d }
{
    if d < 10 {
        b'0' + d as u8
    } else {
        b'a' + (d - 10) as u8
    }
}

// Lays the last k digits of n in a base from at on, the last first, where they fit, and else nothing.
fn spell(out: &mut [u8], at: usize, k: usize, base: u64, n: u64)
    requires { (0 < base) × (base ≤ 16) }
    ensures { out.new ≡ laid out.old at (last_digits base k n) }
{
    if !fits(out.len(), at, k) {
        return;
    }
    let mut left = n;
    for i in (0..k).rev() {
        out[at + i] = glyph(left % base);
        left /= base;
    }
}

// How many decimal digits a number takes.
#[tactic(auto, using(crate::proofs::Digits::one_place, crate::proofs::Digits::power_places))]
fn places_of(n: u64) -> usize
    ensures { result ≡ places n }
{
    if n < 10 { 1 } else { n.ilog10() as usize + 1 }
}

// Lays a number in decimal from at on, where it fits, and else nothing; answers how many digits it has. Most values have one, which is laid without counting.
pub fn put_decimal(out: &mut [u8], at: usize, n: u64) -> usize
    ensures { (result ≡ length (decimal n)) × (out.new ≡ laid out.old at (decimal n)) }
{
    if n < 10 {
        spell(&mut *out, at, 1, 10, n);
        return 1;
    }
    let k = places_of(n);
    spell(&mut *out, at, k, 10, n);
    k
}

// Lays a set of warps as 8 hex digits from at on, where they fit, and else nothing. Most steps release no warp, so that set is laid at once.
pub fn put_warps(out: &mut [u8], at: usize, set: u32)
    ensures { out.new ≡ laid out.old at (warps set) }
{
    if set == 0 {
        put(&mut *out, at, b"00000000");
        return;
    }
    spell(&mut *out, at, 8, 16, u64::from(set));
}

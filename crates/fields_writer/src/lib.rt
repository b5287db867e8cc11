// Little-endian numbers laid into a slice: one writer for every width.
#![tactic(auto)]

ghost use Rattle.std.specs.Prelude.{◌≡◌, length};
ghost use Rattle.fields.specs.Num.{bytes, laid};

// The lowest bytes of v, as many as the field has.
fn put_in(field: &mut [u8], v: u64)
    ensures { field.new ≡ bytes (length field.old) v }
{
    let mut left = v;
    for b in field.iter_mut() {
        *b = (left % 256) as u8;
        left /= 256;
    }
}

// The width lowest bytes of v, laid in from at on; where they do not fit, nothing changes.
pub fn put(out: &mut [u8], at: usize, width: usize, v: u64)
    ensures { out.new ≡ laid out.old at (bytes width v) }
{
    let Some(end) = at.checked_add(width) else {
        return;
    };
    if end <= out.len() {
        put_in(&mut out[at..end], v);
    }
}

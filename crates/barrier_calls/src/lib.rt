// What sync, arrive and red ask of a barrier, one call for the three.
#![tactic(auto)]

ghost use Rattle.std.specs.Prelude.{◌≡◌};
ghost use Rattle.barrier_calls.specs.Calls.{form_of, lanes_of, sync_call, arrive_call, red_call};

use block::{Call, Form};

// A plain call, without true lanes.
fn plain_call(threads: Option<u16>, waits: bool) -> Call
    ensures { result ≡ record { form = Form.Plain; threads = threads; waits = waits; lanes = 0 } }
{
    Call {
        form: Form::Plain,
        threads,
        waits,
        lanes: 0,
    }
}

// What a sync asks for.
pub fn sync_call(threads: Option<u16>) -> Call
    ensures { result ≡ sync_call threads }
{
    plain_call(threads, true)
}

// What an arrive asks for.
pub fn arrive_call(threads: u16) -> Call
    ensures { result ≡ arrive_call threads }
{
    plain_call(Some(threads), false)
}

// The form that a selector names, Idle where it names none.
fn form_of(selector: u8) -> Form
    ensures { result ≡ form_of selector }
{
    match selector {
        0 | 4 => Form::Popc,
        1 | 5 => Form::And,
        2 | 6 => Form::Or,
        _ => Form::Idle,
    }
}

// The true lanes of a mask, which the selectors from 4 complement.
fn lanes_of(selector: u8, mask: u32) -> u32
    ensures { result ≡ lanes_of selector mask }
{
    if 3 < selector {
        sets::size(!mask)
    } else {
        sets::size(mask)
    }
}

// What a red asks for.
pub fn red_call(selector: u8, threads: Option<u16>, mask: u32) -> Call
    ensures { result ≡ red_call selector threads mask }
{
    Call {
        form: form_of(selector),
        threads,
        waits: true,
        lanes: lanes_of(selector, mask),
    }
}

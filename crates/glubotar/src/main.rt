// The checker's program: answers standard input, or each trace file that an argument names.
#![tactic(auto)]

use answering::Room;
use reading::TRACE_ROOM;
use std::env::FillError;
use std::rt::Env;
use whole_text::TEXT_ROOM;

// How many arguments the program was started with, its own name among them.
fn argument_count(rt: &impl Env) -> usize {
    let is_past = |i: &usize| matches!(rt.arg(*i, &mut []), Err(FillError::NotPresent));
    (0..usize::MAX).find(is_past).unwrap_or(usize::MAX)
}

// Makes the room and has every trace answered. Where the output can't be written, that was said, and the rest is left.
fn main(rt: HostRuntime) {
    let mut trace = [0; TRACE_ROOM];
    let mut text = [0; TEXT_ROOM];
    let room = Room {
        trace: &mut trace,
        text: &mut text,
    };
    answering::every(&rt, argument_count(&rt), room);
}

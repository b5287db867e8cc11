// Answering traces: each is read, its text laid and written.
// Without arguments the trace is standard input; else each argument names a trace file.
#![tactic(auto)]

pub mod output;

ghost use Rattle.std.specs.Prelude.{◌≡◌, ◌+◌};
ghost use Rattle.trace_text.specs.Text.{text_of};
ghost use Rattle.reading.specs.Reading.{read_of};
ghost use Rattle.answering.specs.Answers.{input_answered, plus_file, FilesAnswered, Answered};

use output::Written;
use reading::{Read, TRACE_ROOM};
use std::io::Input;
use std::rt::{Env, Files};
use whole_text::TEXT_ROOM;

// The room for a trace and for its text, lent.
#[derive(Drop)]
pub struct Room<'a> {
    pub trace: &'a mut [u8; TRACE_ROOM],
    pub text: &'a mut [u8; TEXT_ROOM],
}

// The text of what was read, laid in the room that it is lent.
fn text_of<'a>(read: &Read, text: &'a mut [u8; TEXT_ROOM]) -> &'a [u8]
    ensures { result.now ≡ text_of (read_of read.now) }
{
    let length = whole_text::lay_whole(read, &mut *text);
    &text[..length]
}

// Answers the trace on standard input.
fn from_input<R: Input + Print + Eprint>(rt: &R, room: Room) -> Written
    ensures { result ≡ input_answered result.all }
{
    let Room { trace, text } = room;
    match reading::standard(rt, trace) {
        Ok(read) => output::input_text(rt, &read, text_of(&read, text)),
        Err(failure) => output::input_unreadable(rt, &failure),
    }
}

// Answers the trace file that argument i names, the one after those that were answered.
fn argument<R: Env + Files + Print + Eprint>(
    rt: &R,
    before: Written,
    i: usize,
    room: Room,
) -> Written
    requires { i ≡ before.files + 1 }
    ensures { result ≡ plus_file before result.all }
{
    let mut name = io::buffer();
    let Room { trace, text } = room;
    match reading::argument(rt, i, &mut name, trace) {
        Ok(read) => output::file_text(rt, before, &read, text_of(&read, text)),
        Err(failure) => output::file_unreadable(rt, before, &failure),
    }
}

// Answers the trace files that the arguments name, one after the other, up to the first whose answer can't be written.
fn arguments<R: Env + Files + Print + Eprint>(rt: &R, count: usize, room: Room) -> Written
    ensures { FilesAnswered count result }
{
    let Room { trace, text } = room;
    let mut written = Written::none();
    for i in 1..count {
        let lent = Room {
            trace: &mut *trace,
            text: &mut *text,
        };
        written = argument(rt, written, i, lent);
        if !written.all() {
            return written;
        }
    }
    written
}

// Answers every trace, in the room that it is lent.
pub fn every<R: Env + Files + Input + Print + Eprint>(rt: &R, count: usize, room: Room) -> Written
    ensures { Answered count result }
{
    if count < 2 {
        return from_input(rt, room);
    }
    arguments(rt, count, room)
}

// Reading traces. What was read is told by a `Read`, and that it can't be read by a `Failure`; each tells of which argument. Only the functions here make them, so that no other function can answer for other bytes than were read, take one file for another, or call a trace unreadable that nobody tried to read.
#![tactic(auto)]

ghost use Rattle.std.specs.Prelude.{◌≡◌, ◌≤◌, false, true, length, IfErr};
ghost use Rattle.std.specs.Io.{ReadsAtMost};
ghost use Rattle.reading.specs.Reading.{Fills, NameOfKind, Unnamed, name_of, called, reason_of};

use std::env::FillError;
use std::io::{Error, ErrorKind, Input};
use std::rt::{Env, Files};
use trace_look::MOST_BYTES;

// One byte past the longest trace, so that a longer one is seen to be too long.
pub const TRACE_ROOM: usize = MOST_BYTES + 1;

// What was read: the number of the argument that names the file, 0 for standard input; its path, lent from the buffer of the name; and the bytes of the trace, lent from the buffer that they were read into.
#[derive(Clone, Copy)]
pub struct Read<'n, 'b> {
    number: usize,
    path: &'n [u8],
    bytes: &'b [u8],
}

// Why a trace can't be read: the argument names no file, or a call failed.
#[derive(Clone, Copy)]
pub enum Cause {
    Name(Error),
    Call(Error),
}

// What could not be read: the number as above; the name that the argument gives, as much of it as its buffer holds; and why.
#[derive(Clone, Copy)]
pub struct Failure<'n> {
    number: usize,
    name: &'n [u8],
    cause: Cause,
}

impl<'n, 'b> Read<'n, 'b> {
    // The bytes of the trace.
    pub fn bytes(&self) -> &'b [u8]
        ensures { result.now ≡ self.now.bytes.now }
    {
        self.bytes
    }

    // The path of the trace file.
    pub fn path(&self) -> &'n [u8]
        ensures { result.now ≡ self.now.path.now }
    {
        self.path
    }
}

impl<'n> Failure<'n> {
    // The name of what could not be read.
    pub fn name(&self) -> &'n [u8]
        ensures { result.now ≡ self.now.name.now }
    {
        self.name
    }

    // Why it could not be read.
    pub fn reason(&self) -> Error
        ensures { result ≡ reason_of self.now.cause }
    {
        match self.cause {
            Cause::Name(reason) => reason,
            Cause::Call(reason) => reason,
        }
    }
}

// Reads until the buffer is full or the input ends, and answers how many bytes it put at the buffer's start.
fn read_whole<R: std::io::Read>(from: &mut R, buf: &mut [u8; TRACE_ROOM]) -> Result<usize, Cause>
    ensures bound { ReadsAtMost result buf.new }
    ensures cause { IfErr result (λ cause. called cause ≡ true) }
{
    let mut at = 0;
    while at < buf.len() {
        let more = from.read(&mut buf[at..]).map_err(Cause::Call)?;
        if more == 0 {
            break;
        }
        at += more;
    }
    Ok(at)
}

// Reads the trace that a number and a path tell of. In a full buffer the trace is too long, whatever follows in the input.
fn fill<'n, 'b, R: std::io::Read>(
    number: usize,
    path: &'n [u8],
    from: &mut R,
    buf: &'b mut [u8; TRACE_ROOM],
) -> Result<Read<'n, 'b>, Failure<'n>>
    ensures name { name_of result ≡ path.now }
    ensures cause { IfErr result (λ failure. called failure.cause ≡ true) }
    ensures fills { Fills number (length buf.old) result }
{
    match read_whole(from, &mut *buf) {
        Ok(len) => Ok(Read {
            number,
            path,
            bytes: &buf[..len],
        }),
        Err(cause) => Err(Failure {
            number,
            name: path,
            cause,
        }),
    }
}

// Reads the trace on standard input. A failure lends nothing.
pub fn standard<'b, R: Input>(
    rt: &R,
    buf: &'b mut [u8; TRACE_ROOM],
) -> Result<Read<'static, 'b>, Failure<'static>>
    ensures cause { IfErr result (λ failure. called failure.cause ≡ true) }
    ensures fills { Fills 0 (length buf.old) result }
{
    fill(0, b"", &mut rt.reader(), buf)
}

// What an argument that names no file comes to.
fn unnamed(number: usize, name: &[u8], kind: ErrorKind) -> Failure<'_>
    ensures asked { result.number ≡ number }
    ensures name { result.name.now ≡ name.now }
    ensures cause { NameOfKind kind result.cause }
{
    Failure {
        number,
        name,
        cause: Cause::Name(Error::from(kind)),
    }
}

// Reads the trace file that an argument names, and puts its path at the start of the other buffer. Of an argument that the buffer can't hold it puts the start there and opens no file; nor is one opened whose name is no text, since the library takes paths as text. A failure lends the name alone.
pub fn argument<'n, 'b, R: Env + Files>(
    rt: &R,
    number: usize,
    name: &'n mut [u8],
    buf: &'b mut [u8; TRACE_ROOM],
) -> Result<Read<'n, 'b>, Failure<'n>>
    ensures prefix_len { length (name_of result) ≤ length name.old }
    ensures cause { IfErr result (λ failure. called failure.cause ≡ false → Unnamed failure.name.now (length name.old)) }
    ensures fills { Fills number (length buf.old) result }
{
    let path = match rt.arg(number, &mut *name) {
        Ok(len) => &name[..len],
        Err(FillError::TooLong) => return Err(unnamed(number, name, ErrorKind::InvalidFilename)),
        Err(FillError::NotPresent) => return Err(unnamed(number, b"", ErrorKind::NotFound)),
    };
    let Ok(text) = str::from_utf8(path) else {
        return Err(unnamed(number, path, ErrorKind::InvalidFilename));
    };
    match std::fs::open(rt, text) {
        Ok(mut file) => fill(number, path, &mut file, buf),
        Err(reason) => Err(Failure {
            number,
            name: path,
            cause: Cause::Call(reason),
        }),
    }
}

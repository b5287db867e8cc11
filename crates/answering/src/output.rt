// Writing the answers. What was written so far is told by a `Written`. Only the functions here make one: `none`, and those that write an answer, which add it to what was written before. So no other function can count an answer that was not written, or count one twice.
ghost use Rattle.std.specs.Prelude.{◌≡◌, ◌+◌};
ghost use Rattle.trace_text.specs.Text.{text_of};
ghost use Rattle.reading.specs.Reading.{read_of};
ghost use Rattle.answering.specs.Answers.{nothing, input_answered, plus_file};

use reading::{Failure, Read};

// Whether standard input was answered, up to which argument the files were, and whether no write failed so far.
#[derive(Clone, Copy)]
pub struct Written {
    input: bool,
    files: usize,
    all: bool,
}

impl Written {
    // Nothing is written yet.
    pub(crate) fn none() -> Written
        ensures { result ≡ nothing }
    {
        Written {
            input: false,
            files: 0,
            all: true,
        }
    }

    // Whether no write failed so far.
    pub fn all(&self) -> bool
        ensures { result ≡ self.now.all }
    {
        self.all
    }

    // What was written, and the answer to a file after it, where that was written too. The second promise follows from the first: it is all that a function which writes can pass on.
    fn plus_file(self, done: bool) -> Written
        ensures value { result ≡ plus_file self done }
        ensures value_2 { result ≡ plus_file self result.all }
    {
        if self.all & done {
            return Written {
                files: self.files.saturating_add(1),
                ..self
            };
        }
        Written { all: false, ..self }
    }
}

// Writes bytes where all before them was written; says so where they are not written, and is then false.
fn put<R: Print + Eprint>(rt: &R, all: bool, bytes: &[u8]) -> bool {
    if !all {
        return false;
    }
    match rt.write_all(bytes) {
        Ok(()) => true,
        Err(reason) => {
            let _ = eprintln!(rt; "standard output: {reason}");
            false
        }
    }
}

// A line of a word and a path, where all before it was written; false where it is not written.
fn line<R: Print + Eprint>(rt: &R, all: bool, word: &[u8], path: &[u8]) -> bool {
    let begun = put(rt, all, word);
    let named = put(rt, begun, path);
    put(rt, named, b"\n")
}

// Writes the text of what was read from standard input, all of it and nothing else. What was read is lent so that the requirement can name it.
pub(crate) fn input_text<R: Print + Eprint>(rt: &R, read: &Read, bytes: &[u8]) -> Written
    requires number_value { read.now.number ≡ 0 }
    requires bytes_value { bytes.now ≡ text_of (read_of read.now) }
    ensures { result ≡ input_answered result.all }
{
    let done = put(rt, true, bytes);
    Written {
        input: done,
        files: 0,
        all: done,
    }
}

// Says that standard input can't be read. No line is due for it, so none is missing.
pub(crate) fn input_unreadable<R: Eprint>(rt: &R, failure: &Failure) -> Written
    requires { failure.now.number ≡ 0 }
    ensures { result ≡ input_answered result.all }
{
    let reason = failure.reason();
    let _ = eprintln!(rt; "standard input: {reason}");
    Written {
        input: true,
        files: 0,
        all: true,
    }
}

// Writes the line that names the next file and the text of what was read from it, all of it and nothing else.
pub(crate) fn file_text<R: Print + Eprint>(
    rt: &R,
    before: Written,
    read: &Read,
    bytes: &[u8],
) -> Written
    requires number_value { read.now.number ≡ before.files + 1 }
    requires bytes_value { bytes.now ≡ text_of (read_of read.now) }
    ensures { result ≡ plus_file before result.all }
{
    let named = line(rt, before.all, b"file ", read.path());
    let done = put(rt, named, bytes);
    before.plus_file(done)
}

// Writes the line that says of the next file that it can't be read.
pub(crate) fn file_unreadable<R: Print + Eprint>(
    rt: &R,
    before: Written,
    failure: &Failure,
) -> Written
    requires { failure.now.number ≡ before.files + 1 }
    ensures { result ≡ plus_file before result.all }
{
    let done = line(rt, before.all, b"unreadable ", failure.name());
    before.plus_file(done)
}

// The lines of the refusal table by name; each has its line's number.
#![tactic(auto)]

ghost use Rattle.std.specs.Prelude.{◌≡◌, Some};
ghost use Rattle.std.specs.Fmt.{decimal};
ghost use Rattle.refusals.specs.Refusals.{number};

use std::fmt;

// Why a trace or a step is refused.
#[derive(Clone, Copy, Debug, PartialEq, Eq)]
pub enum Refusal {
    // Unknown kind.
    UnknownKind = 1,
    // Fewer bytes left than the step needs.
    TooFewBytes = 2,
    // Tables not sound.
    Unsound = 3,
    // No such warp; of fresh tables and of a trace, a number of warps that is 0 or above 32.
    NoSuchWarp = 4,
    // Warp not ready.
    NotReady = 5,
    // Barrier above 15.
    NoSuchBarrier = 6,
    // Threads given, and 0, no multiple of 32, or above 32 times the warps.
    BadThreads = 7,
    // Selector not 0, 1, 2, 4, 5 or 6.
    BadSelector = 8,
    // Barrier active with another thread count or form.
    Clashes = 9,
    // This warp has already arrived there.
    AlreadyArrived = 10,
    // Address no multiple of 8, or above 504.
    BadAddress = 11,
    // Object not live, at a step other than an init.
    NotLive = 12,
    // Object live, at an init.
    AlreadyLive = 13,
    // Init count not 1 to 1,048,575; arrival or drop count 0 or above pending; drop count also not below expected.
    BadCount = 14,
    // Transaction count would leave its range.
    OutOfRange = 15,
    // Arrival or drop while the previous phase is unseen.
    Unseen = 16,
    // A noComplete step would complete the phase.
    EndsQuietly = 17,
    // The step would complete phase 4,294,967,295.
    EndsLast = 18,
    // Token of 2^58 or more; in a test also another object's, or of a phase neither current nor the one before.
    BadToken = 19,
    // Parity above 1.
    BadParity = 20,
    // A trace of more than 65,536 bytes.
    TooLong = 21,
}

impl Refusal {
    // The number of its line.
    pub fn number(self) -> u8
        ensures { result ≡ number self }
    {
        self as u8
    }
}

impl fmt::Display for Refusal {
    ghost output = { λ r. Some (decimal (number r)) };

    // A refusal is printed as its number.
    fn fmt<W: fmt::Write>(&self, f: &mut fmt::Formatter<W>) -> fmt::Result {
        write!(f, "{}", self.number())
    }
}

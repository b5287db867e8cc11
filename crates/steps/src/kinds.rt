// The kinds of step by name; each has its byte, the first of the step's.
ghost use Rattle.std.specs.Prelude.{◌≡◌};
ghost use Rattle.steps.specs.Kind.{byte_of, Named};

use refusals::Refusal;

// What a step does.
#[derive(Clone, Copy, Debug, PartialEq, Eq)]
pub enum Kind {
    // Exit.
    Exit = 1,
    // Sync of all threads.
    SyncAll = 2,
    // Sync of a thread count.
    Sync = 3,
    // Arrive at a named barrier.
    BarrierArrive = 4,
    // Red of all threads.
    RedAll = 5,
    // Red of a thread count.
    Red = 6,
    // Init of an object.
    Init = 7,
    // Inval of an object.
    Inval = 8,
    // Arrive at an object.
    Arrive = 9,
    // Arrive, noComplete.
    ArriveNoComplete = 10,
    // Arrive with an attached expect.
    ArriveExpect = 11,
    // Drop.
    Drop = 12,
    // Drop with an attached expect.
    DropExpect = 13,
    // Expect alone.
    Expect = 14,
    // Complete.
    Complete = 15,
    // Test by token.
    TestToken = 16,
    // Test by parity.
    TestParity = 17,
    // Pending count of a token.
    PendingCount = 18,
    // Drop, noComplete.
    DropNoComplete = 19,
}

impl TryFrom<u8> for Kind {
    type Error = Refusal;

    ghost try_from_gives = { Named };

    // The kind of a byte; of any other byte it is unknown.
    fn try_from(byte: u8) -> Result<Kind, Refusal> {
        match byte {
            1 => Ok(Kind::Exit),
            2 => Ok(Kind::SyncAll),
            3 => Ok(Kind::Sync),
            4 => Ok(Kind::BarrierArrive),
            5 => Ok(Kind::RedAll),
            6 => Ok(Kind::Red),
            7 => Ok(Kind::Init),
            8 => Ok(Kind::Inval),
            9 => Ok(Kind::Arrive),
            10 => Ok(Kind::ArriveNoComplete),
            11 => Ok(Kind::ArriveExpect),
            12 => Ok(Kind::Drop),
            13 => Ok(Kind::DropExpect),
            14 => Ok(Kind::Expect),
            15 => Ok(Kind::Complete),
            16 => Ok(Kind::TestToken),
            17 => Ok(Kind::TestParity),
            18 => Ok(Kind::PendingCount),
            19 => Ok(Kind::DropNoComplete),
            _ => Err(Refusal::UnknownKind),
        }
    }
}

impl From<Kind> for u8 {
    ghost from_gives = { λ kind byte. byte ≡ byte_of kind };

    // The byte of a kind.
    fn from(kind: Kind) -> u8 {
        kind as u8
    }
}

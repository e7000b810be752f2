/// Where a refusal stands: `count` numbers, the others 0.
#[derive(Clone, Copy, Debug, PartialEq, Eq)]
pub struct Place {
    pub count: u8,
    pub a: u64,
    pub b: u64,
    pub c: u64,
}

impl Place {
    ghost use Rattle.std.specs.Prelude.{◌≡◌};

    /// The place of no number.
    pub fn none() -> Place
        ensures { result ≡ record { count = 0; a = 0; b = 0; c = 0 } }
    {
        Place {
            count: 0,
            a: 0,
            b: 0,
            c: 0,
        }
    }

    /// The place of one number.
    pub fn at(a: u64) -> Place
        ensures { result ≡ record { count = 1; a = a; b = 0; c = 0 } }
    {
        Place {
            count: 1,
            a,
            b: 0,
            c: 0,
        }
    }

    /// The place of two numbers.
    pub fn at_two(a: u64, b: u64) -> Place
        ensures { result ≡ record { count = 2; a = a; b = b; c = 0 } }
    {
        Place {
            count: 2,
            a,
            b,
            c: 0,
        }
    }
}

/// How a run ended.
#[derive(Clone, Copy, Debug, PartialEq, Eq)]
pub enum Status {
    /// The whole answer was written.
    Done,
    /// The whole answer was written, and it is no.
    No,
    /// The words are no command.
    Usage,
    /// An input was refused, for the numbered reason at this place.
    Refused { number: u32, place: Place },
    /// A source or a shelf failed.
    ReadFault,
    /// The sink failed.
    WriteFault,
    /// Memory ran out.
    Memory,
    /// The search ended at its budget.
    Budget,
    /// A certificate doesn't hold, for the numbered reason at this place.
    NotAccepted { number: u32, place: Place },
    /// An input is longer than the limit.
    TooLong,
}

impl Status {
    ghost use Rattle.std.specs.Prelude.{◌≡◌};
    ghost use Rattle.qsr_inputs.specs.Code.{code_of};

    /// The exit status of the program.
    pub fn code(&self) -> u8
        ensures { result ≡ code_of self.now }
    {
        match self {
            Status::Done => 0,
            Status::No => 1,
            Status::Usage => 2,
            Status::Refused { .. } => 3,
            Status::ReadFault => 4,
            Status::WriteFault => 5,
            Status::Memory => 6,
            Status::Budget => 7,
            Status::NotAccepted { .. } => 8,
            Status::TooLong => 9,
        }
    }
}

ghost use Rattle.std.specs.Prelude.{◌≡◌};
ghost use Rattle.value_core.specs.FaultCodes.{code_name, code_number};

/// Why a form of a program fails. The number of each is its position here, from 1.
#[derive(Clone, Copy, Debug, PartialEq, Eq)]
pub enum Code {
    WrongType = 1,
    DivideByZero,
    Overflow,
    Index,
    NoTransaction,
    NoTurn,
    FutureEscapes,
    ForkTooDeep,
    TooDeep,
    MessageArity,
}

impl Code {
    /// The number of the code, from 1 to 10.
    pub fn number(self) -> u8
        ensures { result ≡ code_number self }
    {
        match self {
            Code::WrongType => 1,
            Code::DivideByZero => 2,
            Code::Overflow => 3,
            Code::Index => 4,
            Code::NoTransaction => 5,
            Code::NoTurn => 6,
            Code::FutureEscapes => 7,
            Code::ForkTooDeep => 8,
            Code::TooDeep => 9,
            Code::MessageArity => 10,
        }
    }

    /// The code as it is written, its own word.
    pub fn name(self) -> &'static str
        ensures { result.now ≡ code_name self }
    {
        match self {
            Code::WrongType => "WrongType",
            Code::DivideByZero => "DivideByZero",
            Code::Overflow => "Overflow",
            Code::Index => "Index",
            Code::NoTransaction => "NoTransaction",
            Code::NoTurn => "NoTurn",
            Code::FutureEscapes => "FutureEscapes",
            Code::ForkTooDeep => "ForkTooDeep",
            Code::TooDeep => "TooDeep",
            Code::MessageArity => "MessageArity",
        }
    }
}

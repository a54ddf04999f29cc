// Why a call is refused.
ghost use Rattle.std.specs.Prelude.{◌≡◌};
ghost use Rattle.rules.specs.Refusals.{cause_number, number_told};

use script::refusal::ImageRefusal;

// Why a step halts.
#[derive(Clone, Copy, PartialEq, Eq, Debug)]
pub enum Cause {
    StackShort = 1, // fewer operands than the instruction pops
    StackFull = 2, // no room for one more operand
    OutOfRange = 3, // the result has more than 32 bits
    NoVariable = 4, // no such variable
    AlreadyDeclared = 5, // the variable is declared at this path already
    TooManyVariables = 6, // 64 are declared
    PathFull = 7, // the path has 32 names
    WrongNames = 8, // not the innermost name, or names or variables are left that must not be
    TooManyProcesses = 9, // a seventeenth process, or a number too large
}

impl Cause {
    // The number by which users know the cause.
    pub fn number(self) -> u32
        ensures { result ≡ cause_number self }
    {
        self as u32
    }
}

// A step that halts: why, whose, and at which address.
#[derive(Clone, Copy, PartialEq, Eq, Debug)]
pub struct Halt {
    pub cause: Cause,
    pub process: u32,
    pub address: usize,
}

#[derive(Clone, Copy, PartialEq, Eq, Debug)]
pub enum Refusal {
    Image(ImageRefusal), // the image is no script
    TooManyFigures, // more than 32
    ScriptLoaded, // there is a script already
    RunStands, // only at rest
    NoRow, // no such row
    NoScript, // no script is loaded
    NoForwardRun, // no run goes forward
    CannotGo, // this process cannot go
    NothingToTakeBack, // at rest, and the journal is empty
    NobodyCanGo, // no process could go back
    JournalFull, // the entry does not fit
    Halted(Halt), // the instruction cannot be taken
    BufferTooShort, // the mirrored script does not fit
}

impl Refusal {
    // The number by which users know the refusal.
    pub fn number(self) -> u32
        ensures { result ≡ number_told self }
    {
        match self {
            Refusal::Image(refusal) => refusal.number_and_position().0,
            Refusal::TooManyFigures => 5,
            Refusal::ScriptLoaded => 6,
            Refusal::RunStands => 6,
            Refusal::NoRow => 7,
            Refusal::NoScript => 8,
            Refusal::NoForwardRun => 8,
            Refusal::CannotGo => 9,
            Refusal::NothingToTakeBack => 10,
            Refusal::NobodyCanGo => 11,
            Refusal::JournalFull => 12,
            Refusal::Halted(_) => 13,
            Refusal::BufferTooShort => 15,
        }
    }
}

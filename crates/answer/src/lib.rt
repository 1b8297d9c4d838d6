// What an outside call gives back: document 01's table 'Numbers given back', an answer or one refusal for each other code.
#![tactic(auto)]

ghost use Rattle.std.specs.Prelude.{◌≡◌, ◌≤◌};
ghost use Rattle.answer.specs.Numbers.{code_of, value_of, number_of, with_level, answers};

use std::fmt;

#[derive(Clone, Copy, Debug, PartialEq, Eq)]
pub enum Refusal {
    // n is above the highest level; in a file, at the place of that byte.
    BadLevel { place: u32 },
    // A slice has the wrong length: 0 the table, 1 the other.
    WrongLength { which: u32 },
    // The first fault of a table is one of rules 1 to 4, at this node.
    BadNode { node: u32 },
    // A fork stands too deep: a node, or a byte of a file.
    TooDeep { at: u32 },
    // A fork's four sons are like leaves: a node, or a byte of a file.
    NeedlessFork { at: u32 },
    // The node asked for is no node of the table.
    NoNode { node: u32 },
    // A direction, a side or a corner that is none, or a corner that is not on its side.
    BadDirection { given: u32 },
    // The first byte of a raster that is no colour.
    BadPixel { place: u32 },
    // The output is too short: so many words, bytes or numbers are needed.
    NoRoom { needed: u32 },
    // The place given to a step of the walk is out of range.
    BadPlace,
    // A ground number is out of range: 0 east, 1 north, 2 step.
    OutOfRange { which: u32 },
    // A byte of a file is no mark, or no type.
    BadByte { place: u32 },
    // A byte that a file needs is absent.
    Absent { place: u32 },
    // A file's node count is not its block's, or bytes are left over.
    BadCount { place: u32 },
    // A program does not print so large a sheet.
    TooLarge { place: u32 },
    // No block of the sheet lies there.
    NoBlock,
}

// What a call gives: its value where it answers, which is 0 where there is nothing to tell.
pub type Outcome = Result<u32, Refusal>;

impl Refusal {
    // The code of a refusal.
    pub fn code(self) -> u32
        ensures { result ≡ code_of (Err self) }
    {
        match self {
            Refusal::BadLevel { .. } => 1,
            Refusal::WrongLength { .. } => 2,
            Refusal::BadNode { .. } => 3,
            Refusal::TooDeep { .. } => 4,
            Refusal::NeedlessFork { .. } => 5,
            Refusal::NoNode { .. } => 6,
            Refusal::BadDirection { .. } => 7,
            Refusal::BadPixel { .. } => 8,
            Refusal::NoRoom { .. } => 9,
            Refusal::BadPlace => 10,
            Refusal::OutOfRange { .. } => 11,
            Refusal::BadByte { .. } => 12,
            Refusal::Absent { .. } => 13,
            Refusal::BadCount { .. } => 14,
            Refusal::TooLarge { .. } => 15,
            Refusal::NoBlock => 20,
        }
    }

    // The value of a refusal: the place, the node, the number or the length that is wrong, or how much is needed.
    pub fn value(self) -> u32
        ensures { result ≡ value_of (Err self) }
    {
        match self {
            Refusal::BadLevel { place }
            | Refusal::BadPixel { place }
            | Refusal::BadByte { place }
            | Refusal::Absent { place }
            | Refusal::BadCount { place }
            | Refusal::TooLarge { place } => place,
            Refusal::WrongLength { which } | Refusal::OutOfRange { which } => which,
            Refusal::BadNode { node } | Refusal::NoNode { node } => node,
            Refusal::TooDeep { at } | Refusal::NeedlessFork { at } => at,
            Refusal::BadDirection { given } => given,
            Refusal::NoRoom { needed } => needed,
            Refusal::BadPlace | Refusal::NoBlock => 0,
        }
    }
}

// `CODE VALUE`, as the programs print a refusal.
impl fmt::Display for Refusal {
    ghost use Rattle.std.specs.Prelude.{Some};
    ghost use Rattle.answer.specs.Printed.{refusal_text};

    ghost output = { λ e. Some (refusal_text e) };

    fn fmt<W: fmt::Write>(&self, f: &mut fmt::Formatter<W>) -> fmt::Result {
        write!(f, "{} {}", self.code(), self.value())
    }
}

// The code of an outcome: a refusal's, or 0.
pub fn code(o: Outcome) -> u32
    ensures { result ≡ code_of o }
{
    match o {
        Ok(_) => 0,
        Err(refusal) => refusal.code(),
    }
}

// The value of an outcome: an answer's, or a refusal's.
pub fn value(o: Outcome) -> u32
    ensures { result ≡ value_of o }
{
    match o {
        Ok(value) => value,
        Err(refusal) => refusal.value(),
    }
}

// Whether it is an answer, and no refusal.
pub fn answered(o: Outcome) -> bool
    ensures { result ≡ answers o }
{
    code(o) == 0
}

// The one number that a C caller gets: code + 256 × value.
pub fn number(o: Outcome) -> u64
    ensures { result ≡ number_of o }
{
    match o {
        Ok(value) => 256 * u64::from(value),
        Err(refusal) => u64::from(refusal.code()) + 256 * u64::from(refusal.value()),
    }
}

// A level is below it.
pub const LEVEL_ROOM: u32 = 8;

// A node, or a node count, and a level beside it in one value.
pub fn with_level(k: u32, level: u32) -> u32
    requires { with_level k level ≤ 4294967295 }
    ensures { result ≡ with_level k level }
{
    LEVEL_ROOM * k + level
}

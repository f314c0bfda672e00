// Why bytes are no sheet, and why a sheet is not written. `specs/Refusals.antt` gives each its
// number and its place.
ghost use Rattle.std.specs.Prelude.{◌≡◌};
ghost use Rattle.sheets.specs.Refusals.{refused_of, too_short};

use std::error::Error;
use std::fmt;

#[derive(Debug, Clone, Copy, PartialEq, Eq)]
pub enum SheetRefusal {
    // fewer bytes are left than a frame begins with
    NoHeader { at: usize },
    // the frame is of another kind
    OtherKind { at: usize },
    // the length is not that of whole records, or that of too many
    BadLength { at: usize },
    // the payload ends before its length
    CutShort { at: usize },
    // the numbers do not meet the kind's condition
    ConditionFails { at: usize },
    // the record does not come after the one before it
    NotAfter { at: usize },
    // bytes follow the second frame
    BytesAfter { at: usize },
    // there is no such section, or no such record in it
    NoRecord,
}

impl SheetRefusal {
    pub fn number(&self) -> u8
        ensures { result ≡ (refused_of self.now).number }
    {
        match self {
            SheetRefusal::NoHeader { .. } => 21,
            SheetRefusal::OtherKind { .. } => 22,
            SheetRefusal::BadLength { .. } => 23,
            SheetRefusal::CutShort { .. } => 24,
            SheetRefusal::ConditionFails { .. } => 25,
            SheetRefusal::NotAfter { .. } => 26,
            SheetRefusal::BytesAfter { .. } => 27,
            SheetRefusal::NoRecord => 28,
        }
    }

    // The offset in the sheet that the refusal is about.
    pub fn place(&self) -> usize
        ensures { result ≡ (refused_of self.now).place }
    {
        match self {
            SheetRefusal::NoHeader { at }
            | SheetRefusal::OtherKind { at }
            | SheetRefusal::BadLength { at }
            | SheetRefusal::CutShort { at }
            | SheetRefusal::ConditionFails { at }
            | SheetRefusal::NotAfter { at }
            | SheetRefusal::BytesAfter { at } => *at,
            SheetRefusal::NoRecord => 0,
        }
    }
}

impl fmt::Display for SheetRefusal {
    fn fmt<W: fmt::Write>(&self, f: &mut fmt::Formatter<W>) -> fmt::Result {
        match self {
            SheetRefusal::NoHeader { .. } => write!(f, "a frame has to begin here"),
            SheetRefusal::OtherKind { .. } => write!(f, "the frame is of another kind"),
            SheetRefusal::BadLength { .. } => {
                write!(f, "the frame's length is not that of up to 4096 records")
            }
            SheetRefusal::CutShort { .. } => write!(f, "the payload from here on is cut short"),
            SheetRefusal::ConditionFails { .. } => {
                write!(f, "the record here does not meet the condition of its kind")
            }
            SheetRefusal::NotAfter { .. } => {
                write!(f, "the record here does not come after the one before it")
            }
            SheetRefusal::BytesAfter { .. } => write!(f, "the sheet has to end here"),
            SheetRefusal::NoRecord => write!(f, "there is no such record"),
        }
    }
}

impl Error for SheetRefusal {}

// The buffer is shorter than what has to be written.
#[derive(Debug, Clone, Copy, PartialEq, Eq)]
pub struct TooShort;

impl TooShort {
    pub fn number(&self) -> u8
        ensures { result ≡ too_short.number }
    {
        33
    }

    pub fn place(&self) -> usize
        ensures { result ≡ too_short.place }
    {
        0
    }
}

impl fmt::Display for TooShort {
    fn fmt<W: fmt::Write>(&self, f: &mut fmt::Formatter<W>) -> fmt::Result {
        write!(f, "the buffer is too short")
    }
}

impl Error for TooShort {}

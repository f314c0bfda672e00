// Why a line is refused, with the part of it that a number's fault carries.
ghost use Rattle.std.specs.Prelude.{◌≡◌};
ghost use Rattle.atoi_simd.specs.Answer.{fault_of};
ghost use Rattle.records.specs.Line.{placed};
ghost use Rattle.records.specs.Meaning.{refused_of, Prefixed};
ghost use Rattle.records.specs.Outcome.{refused};

use atoi_simd::AtoiSimdError;
use std::error::Error;
use std::fmt;

#[derive(Debug, Clone, Copy, PartialEq, Eq)]
pub enum Refusal<'a> {
    // the line begins with no section's word
    UnknownWord,
    // no digit where a number has to stand
    NoNumber {
        at: usize,
    },
    // a number with more digits than are looked at
    TooManyDigits {
        at: usize,
        count: usize,
        part: &'a [u8],
    },
    // a number past the least or greatest of its type
    OutOfRange {
        at: usize,
        part: &'a [u8],
    },
    // another byte than a space right behind a number
    NoSpace {
        at: usize,
    },
    // the line goes on behind its last number
    SpaceAfterLast {
        at: usize,
    },
    // the numbers do not meet the kind's condition
    ConditionFails,
}

impl Refusal<'_> {
    pub fn number(&self) -> u8
        ensures { result ≡ (refused_of self.now).number }
    {
        match self {
            Refusal::UnknownWord => 11,
            Refusal::NoNumber { .. } => 12,
            Refusal::TooManyDigits { .. } => 13,
            Refusal::OutOfRange { .. } => 14,
            Refusal::NoSpace { .. } => 15,
            Refusal::SpaceAfterLast { .. } => 16,
            Refusal::ConditionFails => 17,
        }
    }

    // The offset in the line that the refusal is about.
    pub fn place(&self) -> usize
        ensures { result ≡ (refused_of self.now).place }
    {
        match self {
            Refusal::UnknownWord | Refusal::ConditionFails => 0,
            Refusal::NoNumber { at }
            | Refusal::TooManyDigits { at, .. }
            | Refusal::OutOfRange { at, .. }
            | Refusal::NoSpace { at }
            | Refusal::SpaceAfterLast { at } => *at,
        }
    }
}

impl fmt::Display for Refusal<'_> {
    fn fmt<W: fmt::Write>(&self, f: &mut fmt::Formatter<W>) -> fmt::Result {
        match self {
            Refusal::UnknownWord => write!(f, "the line begins with no word of a section"),
            Refusal::NoNumber { .. } => write!(f, "a number has to stand here"),
            Refusal::TooManyDigits { count, .. } => {
                write!(
                    f,
                    "the number here is too long, {count} digits were counted"
                )
            }
            Refusal::OutOfRange { .. } => write!(f, "the number here is out of range"),
            Refusal::NoSpace { .. } => write!(f, "a space or the line's end has to stand here"),
            Refusal::SpaceAfterLast { .. } => {
                write!(f, "the line has to end here, behind its last number")
            }
            Refusal::ConditionFails => write!(
                f,
                "the numbers do not meet the condition of their kind"
            ),
        }
    }
}

impl Error for Refusal<'_> {}

// A number's fault, at its place in the line. A prefix call has no fault but these three.
pub(crate) fn fault_at(at: usize, fault: AtoiSimdError<'_>) -> Refusal<'_>
    requires { Prefixed (fault_of fault) }
    ensures { refused (refused_of result) ≡ placed at (fault_of fault.entry) }
{
    match fault {
        AtoiSimdError::Empty => Refusal::NoNumber { at },
        AtoiSimdError::Size(count, part) => Refusal::TooManyDigits { at, count, part },
        AtoiSimdError::Overflow(part) => Refusal::OutOfRange { at, part },
        AtoiSimdError::Invalid64(_, _, _) => unreachable(),
    }
}

// What the library answers, in the form that is printed and compared.
//
// A number that was read is `Ok VALUE`, with the count of bytes read after it where the call allows
// others behind them. A fault is its name and what it carries; of the part of the text that it
// carries, `@OFFSET+LENGTH` says where it stands.
ghost use Rattle.std.specs.Prelude.{◌≡◌, ◌+◌, ◌≤◌, length};

use atoi_simd::AtoiSimdError;
use std::fmt;

// A part of a text.
#[derive(Clone, Copy, PartialEq, Eq)]
pub struct Part {
    pub offset: usize,
    pub len: usize,
}

impl Part {
    // Where a part that reaches to the end of the text stands in it.
    fn of(part: &[u8], text: &[u8]) -> Part
        ensures len { result.len ≡ length part.now }
        ensures end { length part.now ≤ length text.now → result.offset + result.len ≡ length text.now }
    {
        let len = part.len();
        let offset = text.len().saturating_sub(len);
        Part { offset, len }
    }
}

impl fmt::Display for Part {
    fn fmt<W: fmt::Write>(&self, f: &mut fmt::Formatter<W>) -> fmt::Result {
        let Part { offset, len } = *self;
        write!(f, "@{offset}+{len}")
    }
}

// An enum, and no `Result`, so that `Display` writes it whole.
#[derive(Clone, Copy, PartialEq, Eq)]
pub enum Answer {
    Ok(i128, Option<usize>),
    Empty,
    Size(usize, Part),
    Overflow(Part),
    Invalid64(u64, usize, Part),
}

impl Answer {
    // The answer of a call that reads a whole text.
    pub fn of_whole<T: Into<i128>>(res: Result<T, AtoiSimdError<'_>>, text: &[u8]) -> Answer {
        match res {
            Ok(value) => Answer::Ok(value.into(), None),
            Err(fault) => Answer::of_fault(fault, text),
        }
    }

    // The answer of a call that reads the front of a text.
    pub fn of_prefix<T: Into<i128>>(
        res: Result<(T, usize), AtoiSimdError<'_>>,
        text: &[u8],
    ) -> Answer {
        match res {
            Ok((value, count)) => Answer::Ok(value.into(), Some(count)),
            Err(fault) => Answer::of_fault(fault, text),
        }
    }

    fn of_fault(fault: AtoiSimdError<'_>, text: &[u8]) -> Answer {
        match fault {
            AtoiSimdError::Empty => Answer::Empty,
            AtoiSimdError::Size(count, part) => Answer::Size(count, Part::of(part, text)),
            AtoiSimdError::Overflow(part) => Answer::Overflow(Part::of(part, text)),
            AtoiSimdError::Invalid64(value, count, part) => {
                Answer::Invalid64(value, count, Part::of(part, text))
            }
        }
    }
}

impl fmt::Display for Answer {
    fn fmt<W: fmt::Write>(&self, f: &mut fmt::Formatter<W>) -> fmt::Result {
        match self {
            Answer::Ok(value, None) => write!(f, "Ok {value}"),
            Answer::Ok(value, Some(count)) => write!(f, "Ok {value} {count}"),
            Answer::Empty => write!(f, "Empty"),
            Answer::Size(count, part) => write!(f, "Size {count} {part}"),
            Answer::Overflow(part) => write!(f, "Overflow {part}"),
            Answer::Invalid64(value, count, part) => write!(f, "Invalid64 {value} {count} {part}"),
        }
    }
}

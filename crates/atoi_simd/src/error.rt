// The faults of the number parser. Each carries the part of the caller's bytes that it speaks of.
use std::error::Error;
use std::fmt;

#[derive(Debug, Clone, Copy, PartialEq, Eq)]
pub enum AtoiSimdError<'a> {
    // no digit where one has to stand
    Empty,
    // more digits than a number of the type can need: how many were counted
    Size(usize, &'a [u8]),
    // the number is past the type's least or greatest value
    Overflow(&'a [u8]),
    // bytes follow the digits: the digits' magnitude, and how many there are
    Invalid64(u64, usize, &'a [u8]),
}

// The first bytes of a part, as many as a message shows, in hexadecimal: `[31, 3B]`.
// `{:X?}` would print the slice so, but a hole does not take it yet.
#[derive(Clone, Copy)]
struct Shown<'a>(&'a [u8]);

impl fmt::Display for Shown<'_> {
    fn fmt<W: fmt::Write>(&self, f: &mut fmt::Formatter<W>) -> fmt::Result {
        write!(f, "[")?;
        for (i, byte) in self.0.iter().take(48).enumerate() {
            if i > 0 {
                write!(f, ", ")?;
            }
            write!(f, "{:X}", *byte)?;
        }
        write!(f, "]")
    }
}

impl fmt::Display for AtoiSimdError<'_> {
    fn fmt<W: fmt::Write>(&self, f: &mut fmt::Formatter<W>) -> fmt::Result {
        match self {
            AtoiSimdError::Empty => write!(f, "atoi_simd string is empty"),
            AtoiSimdError::Size(len, input) => {
                write!(f, "atoi_simd wrong size: {} input: {}", len, Shown(input))
            }
            AtoiSimdError::Overflow(input) => {
                write!(f, "atoi_simd overflow, input: {}", Shown(input))
            }
            AtoiSimdError::Invalid64(res, index, input) => write!(
                f,
                "atoi_simd invalid at index: {} it must contain only digits, starting with: {}  input: {}",
                index,
                res,
                Shown(input)
            ),
        }
    }
}

impl Error for AtoiSimdError<'_> {}

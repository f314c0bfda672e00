// Reads a question off a line of bytes.
//
// A line is `CALL TYPE SKIPS TEXT`, with one space after each of the first three words, and may go
// on with ` => ANSWER`. CALL is one of the library's six calls. TYPE is u8 to u64 or i8 to i64.
// SKIPS is `z` or `-`, then `p` or `-`: whether zeros and a plus in front are skipped. TEXT is what
// is to be read, as it stands, or `hex:` and two hexadecimal digits for each of its bytes.
ghost use Rattle.std.specs.Prelude.{◌≡◌, ◌+◌, length, IfSome};

use hex::FromHexError;
use std::alloc::{AllocError, AllocFailed, Global};
use std::fmt;

// The six calls of the library.
#[derive(Clone, Copy, PartialEq, Eq)]
pub enum Call {
    Parse,
    ParsePos,
    ParseNeg,
    ParsePrefix,
    ParsePrefixPos,
    ParsePrefixNeg,
}

impl TryFrom<&[u8]> for Call {
    type Error = Unread;

    fn try_from(word: &[u8]) -> Result<Call, Unread> {
        match word {
            b"parse" => Ok(Call::Parse),
            b"parse_pos" => Ok(Call::ParsePos),
            b"parse_neg" => Ok(Call::ParseNeg),
            b"parse_prefix" => Ok(Call::ParsePrefix),
            b"parse_prefix_pos" => Ok(Call::ParsePrefixPos),
            b"parse_prefix_neg" => Ok(Call::ParsePrefixNeg),
            _ => Err(Unread::UnknownCall),
        }
    }
}

impl Call {
    // Only these two look for a sign, and so for a plus to skip.
    fn takes_sign(self) -> bool {
        matches!(self, Call::Parse | Call::ParsePrefix)
    }
}

// The eight types that a text is read as.
#[derive(Clone, Copy, PartialEq, Eq)]
pub enum NumberName {
    U8,
    U16,
    U32,
    U64,
    I8,
    I16,
    I32,
    I64,
}

impl TryFrom<&[u8]> for NumberName {
    type Error = Unread;

    fn try_from(word: &[u8]) -> Result<NumberName, Unread> {
        match word {
            b"u8" => Ok(NumberName::U8),
            b"u16" => Ok(NumberName::U16),
            b"u32" => Ok(NumberName::U32),
            b"u64" => Ok(NumberName::U64),
            b"i8" => Ok(NumberName::I8),
            b"i16" => Ok(NumberName::I16),
            b"i32" => Ok(NumberName::I32),
            b"i64" => Ok(NumberName::I64),
            _ => Err(Unread::UnknownType),
        }
    }
}

// What is skipped in front of the digits: data of a question, handed on to the library.
#[derive(Clone, Copy, PartialEq, Eq)]
pub struct Skips {
    pub zeroes: bool,
    pub plus: bool,
}

impl TryFrom<&[u8]> for Skips {
    type Error = Unread;

    fn try_from(word: &[u8]) -> Result<Skips, Unread> {
        let (zeroes, plus) = match word {
            b"--" => (false, false),
            b"-p" => (false, true),
            b"z-" => (true, false),
            b"zp" => (true, true),
            _ => return Err(Unread::BadSkips),
        };
        Ok(Skips { zeroes, plus })
    }
}

// Why a line is no question.
#[derive(Clone, Copy, PartialEq, Eq)]
pub enum Unread {
    UnknownCall,
    UnknownType,
    BadSkips,
    PlusKept,
    NoNegative,
    NoText,
    BadHexadecimal,
    NoMemory,
}

impl fmt::Display for Unread {
    fn fmt<W: fmt::Write>(&self, f: &mut fmt::Formatter<W>) -> fmt::Result {
        f.write_str(match self {
            Unread::UnknownCall => "unknown call",
            Unread::UnknownType => "unknown type",
            Unread::BadSkips => "bad skips",
            Unread::PlusKept => "this call skips no plus",
            Unread::NoNegative => "no negative numbers of an unsigned type",
            Unread::NoText => "no text",
            Unread::BadHexadecimal => "bad hexadecimal",
            Unread::NoMemory => "no memory",
        })
    }
}

impl From<AllocError> for Unread {
    fn from(_e: AllocError) -> Unread {
        Unread::NoMemory
    }
}

impl<T: Drop> From<AllocFailed<T>> for Unread {
    fn from(_e: AllocFailed<T>) -> Unread {
        Unread::NoMemory
    }
}

impl From<FromHexError> for Unread {
    fn from(e: FromHexError) -> Unread {
        match e {
            FromHexError::OutOfMemory => Unread::NoMemory,
            _ => Unread::BadHexadecimal,
        }
    }
}

#[derive(Drop)]
pub struct Question<'a> {
    pub call: Call,
    pub number: NumberName,
    pub skips: Skips,
    pub text: Vec<u8>,
    pub expected: Option<&'a [u8]>,
}

impl Question<'_> {
    pub fn read(heap: Global, line: &[u8]) -> Result<Question<'_>, Unread> {
        let (asked, expected) = match cut(line, b" => ") {
            Some((front, back)) => (front, Some(back)),
            None => (line, None),
        };
        let (call, rest) = first_word(asked);
        let (number, rest) = first_word(rest);
        let (skips, text) = first_word(rest);
        let call = Call::try_from(call)?;
        let number = NumberName::try_from(number)?;
        let skips = Skips::try_from(skips)?;
        if skips.plus && !call.takes_sign() {
            return Err(Unread::PlusKept);
        }
        let text = bytes_of(heap, text)?;
        Ok(Question {
            call,
            number,
            skips,
            text,
            expected,
        })
    }
}

// The bytes before and after the first place at which the mark stands, by parts: a library would be
// for this alone.
fn cut<'a>(line: &'a [u8], mark: &[u8]) -> Option<(&'a [u8], &'a [u8])>
    ensures { IfSome result (λ p. length p.0.now + length mark.now + length p.1.now ≡ length line.now) }
{
    for at in 0..line.len() {
        let (front, back) = line.split_at(at);
        if let Some(rest) = back.strip_prefix(mark) {
            return Some((front, rest));
        }
    }
    None
}

// The first word of a line, and what follows the space after it.
fn first_word(line: &[u8]) -> (&[u8], &[u8]) {
    cut(line, b" ").unwrap_or((line, b""))
}

// The bytes that a TEXT stands for.
fn bytes_of(heap: Global, text: &[u8]) -> Result<Vec<u8>, Unread> {
    match text.strip_prefix(b"hex:") {
        // refused before the library asks for the memory of the bytes
        Some(digits) if !digits.iter().all(u8::is_ascii_hexdigit) => Err(Unread::BadHexadecimal),
        // the `?` turns the library's fault into this program's
        Some(digits) => Ok(hex::decode(heap, digits)?),
        None if text.is_empty() => Err(Unread::NoText),
        None => Ok(text.to_vec(heap)?),
    }
}

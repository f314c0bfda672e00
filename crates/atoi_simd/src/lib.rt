// Integers of 8 to 64 bits from decimal text, eight digits at a time: a port of the fallback
// of the Rust crate atoi_simd.
//
// Each of the six calls is proved equal to one definition, `specs/Calls.antt`, for every text
// and every number type. `parse` and `parse_prefix` take a sign, the other four take none. The
// checked calls (`parse`, `parse_pos`, `parse_neg`) want all bytes to be digits; the prefix
// calls stop behind the last digit and say how many bytes they have read.
//
// `skip_zeroes` and `skip_plus` are const arguments in the ported crate. A trait's method takes
// none here, so they are plain ones.
#![tactic(auto)]

ghost use Rattle.std.specs.Prelude.{◌≡◌, true, false, length};
ghost use Rattle.atoi_simd.specs.Answer.{prefix_by, checked_by};
ghost use Rattle.atoi_simd.specs.Calls.{front, all, unsigned_call, signed_call};
ghost use Rattle.atoi_simd.specs.Numeral.{TakesNumerals};
ghost use Rattle.atoi_simd.specs.Worked.{WorkedCasesHold};

pub mod error;
mod fallback;
mod limit;
pub mod linker;
mod short;

pub use error::AtoiSimdError;
pub use linker::{Number, Parse, ParseNeg, ParsePos};

// All of the text as a number, a sign before it or not.
//
// With both skips on it takes exactly the texts that are an optional sign which the type takes,
// then one or more digits and nothing else, and whose number is one of the type's.
pub fn parse<T: Parse>(s: &[u8], skip_zeroes: bool, skip_plus: bool) -> Result<T, AtoiSimdError<'_>>
    ensures value { checked_by T.number (length s.now) result ≡ signed_call all T.means skip_zeroes skip_plus s.now }
    ensures numerals { skip_zeroes ≡ true → skip_plus ≡ true → TakesNumerals T.means T.number s.now result }
{
    T::atoi_simd_parse(s, skip_zeroes, skip_plus)
}

// All of the text as a number, with no sign.
pub fn parse_pos<T: ParsePos>(s: &[u8], skip_zeroes: bool) -> Result<T, AtoiSimdError<'_>>
    ensures { checked_by T.number (length s.now) result ≡ unsigned_call all T.means false skip_zeroes s.now }
{
    T::atoi_simd_parse_pos(s, skip_zeroes)
}

// All of the text as a number, with no sign, its value negated.
pub fn parse_neg<T: ParseNeg>(s: &[u8], skip_zeroes: bool) -> Result<T, AtoiSimdError<'_>>
    ensures { checked_by T.number (length s.now) result ≡ unsigned_call all T.means true skip_zeroes s.now }
{
    T::atoi_simd_parse_neg(s, skip_zeroes)
}

// The number at the front of the text, a sign before it or not, and the count of bytes read.
pub fn parse_prefix<T: Parse>(
    s: &[u8],
    skip_zeroes: bool,
    skip_plus: bool,
) -> Result<(T, usize), AtoiSimdError<'_>>
    ensures { prefix_by T.number result ≡ signed_call front T.means skip_zeroes skip_plus s.now }
{
    T::atoi_simd_parse_prefix(s, skip_zeroes, skip_plus)
}

// The number at the front of the text, with no sign, and the count of bytes read.
pub fn parse_prefix_pos<T: ParsePos>(
    s: &[u8],
    skip_zeroes: bool,
) -> Result<(T, usize), AtoiSimdError<'_>>
    ensures { prefix_by T.number result ≡ unsigned_call front T.means false skip_zeroes s.now }
{
    T::atoi_simd_parse_prefix_pos(s, skip_zeroes)
}

// The number at the front of the text, with no sign, its value negated, and the count of bytes
// read.
pub fn parse_prefix_neg<T: ParseNeg>(
    s: &[u8],
    skip_zeroes: bool,
) -> Result<(T, usize), AtoiSimdError<'_>>
    ensures { prefix_by T.number result ≡ unsigned_call front T.means true skip_zeroes s.now }
{
    T::atoi_simd_parse_prefix_neg(s, skip_zeroes)
}

// The definition answers the worked cases, `specs/Worked.antt`, as their table says.
pub fn worked_cases()
    ensures { WorkedCasesHold }
{}

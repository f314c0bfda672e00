// The sign, and the choice of the reader by the number type.
ghost use Rattle.std.specs.Prelude.{◌≡◌, ◌+◌, ◌^◌, ◌<◌, ◌≤◌, true, false, length, ℤ, pos, IfOk};
ghost use Rattle.atoi_simd.specs.Answer.{prefix_by, checked_by};
ghost use Rattle.atoi_simd.specs.Calls.{front, all, unsigned_call, signed_call, after_sign};
ghost use Rattle.atoi_simd.specs.Limits.{magnitude};
ghost use Rattle.atoi_simd.specs.NumberType.{NumberType, Whole, takes_minus, limit};

use crate::error::AtoiSimdError;
use crate::fallback::{
    parse_fb_64_pos, parse_fb_checked_64_pos, parse_fb_checked_pos, parse_fb_pos,
};
use crate::limit::Limit;

pub mod fb_32;
pub mod fb_64;

// What a number type means, and the number that a value stands for.
pub trait Number: Sized {
    ghost means: { NumberType };

    ghost number: { Self → ℤ };

    ghost whole: { Whole means };
}

// Digits with no sign before them.
pub trait ParsePos: Number {
    fn atoi_simd_parse_pos(s: &[u8], skip_zeroes: bool) -> Result<Self, AtoiSimdError<'_>>
        ensures { checked_by Self.number (length s.now) result ≡ unsigned_call all Self.means false skip_zeroes s.now };

    fn atoi_simd_parse_prefix_pos(
        s: &[u8],
        skip_zeroes: bool,
    ) -> Result<(Self, usize), AtoiSimdError<'_>>
        ensures { prefix_by Self.number result ≡ unsigned_call front Self.means false skip_zeroes s.now };
}

// What a type brings to be read with no sign. Its greatest number is a constant of its own.
pub(crate) trait Limited: Number {
    fn greatest() -> Limit
        ensures { magnitude result ≡ limit Self.means false };

    // The value that stands for a number.
    fn of(number: u64) -> Self
        requires { number ≤ limit Self.means false }
        ensures { Self.number result ≡ pos number };
}

// What `ParsePos` hands on to, at each type that has a limit. One impl for all of them would be a
// second match at a type of one's own, and then a struct over a kind with such a number has no proof.
pub(crate) fn parse_pos_limited<T: Limited>(
    s: &[u8],
    skip_zeroes: bool,
) -> Result<T, AtoiSimdError<'_>>
    ensures { checked_by T.number (length s.now) result ≡ unsigned_call all T.means false skip_zeroes s.now }
{
    let val = match T::greatest() {
        Limit::Narrow(limit) => parse_fb_checked_pos(s, limit)?,
        Limit::Wide(limit) => parse_fb_checked_64_pos(s, limit, skip_zeroes)?,
    };
    Ok(T::of(val))
}

// The same at the front of a text.
pub(crate) fn parse_prefix_pos_limited<T: Limited>(
    s: &[u8],
    skip_zeroes: bool,
) -> Result<(T, usize), AtoiSimdError<'_>>
    ensures { prefix_by T.number result ≡ unsigned_call front T.means false skip_zeroes s.now }
{
    let (val, len) = match T::greatest() {
        Limit::Narrow(limit) => parse_fb_pos(s, limit, skip_zeroes)?,
        Limit::Wide(limit) => parse_fb_64_pos(s, limit, skip_zeroes)?,
    };
    Ok((T::of(val), len))
}

// Digits with no sign before them, whose value is negated.
pub trait ParseNeg: Number {
    fn atoi_simd_parse_neg(s: &[u8], skip_zeroes: bool) -> Result<Self, AtoiSimdError<'_>>
        ensures { checked_by Self.number (length s.now) result ≡ unsigned_call all Self.means true skip_zeroes s.now };

    fn atoi_simd_parse_prefix_neg(
        s: &[u8],
        skip_zeroes: bool,
    ) -> Result<(Self, usize), AtoiSimdError<'_>>
        ensures { prefix_by Self.number result ≡ unsigned_call front Self.means true skip_zeroes s.now };
}

// Digits with at most one sign before them.
//
// It is written out for each type: an impl for all that take a minus and one for all others would
// overlap, and no macro may write an impl.
pub trait Parse: ParsePos {
    fn atoi_simd_parse(
        s: &[u8],
        skip_zeroes: bool,
        skip_plus: bool,
    ) -> Result<Self, AtoiSimdError<'_>>
        ensures { checked_by Self.number (length s.now) result ≡ signed_call all Self.means skip_zeroes skip_plus s.now };

    fn atoi_simd_parse_prefix(
        s: &[u8],
        skip_zeroes: bool,
        skip_plus: bool,
    ) -> Result<(Self, usize), AtoiSimdError<'_>>
        ensures { prefix_by Self.number result ≡ signed_call front Self.means skip_zeroes skip_plus s.now };
}

// The four readers of a sign that follow are not one: it would take each reader of digits as a
// closure, and every caller would still name it. Each answers what the call that ends in it
// answers.

// An unsigned number: a `+` may stand before it.
fn atoi_simd_parse_unsigned<T: ParsePos>(
    s: &[u8],
    skip_zeroes: bool,
    skip_plus: bool,
) -> Result<T, AtoiSimdError<'_>>
    requires { takes_minus T.means ≡ false }
    ensures { checked_by T.number (length s.now) result ≡ signed_call all T.means skip_zeroes skip_plus s.now }
{
    match s {
        [b'+', rest @ ..] if skip_plus => T::atoi_simd_parse_pos(rest, skip_zeroes),
        _ => T::atoi_simd_parse_pos(s, skip_zeroes),
    }
}

// A result for what stands behind a sign, with the sign counted as a byte read.
fn after_sign<T>(
    res: Result<(T, usize), AtoiSimdError<'_>>,
) -> Result<(T, usize), AtoiSimdError<'_>>
    requires { IfOk res (λ p. p.1 + 1 < 2 ^ 64) }
    ensures { (number : T → ℤ) → prefix_by number result ≡ after_sign (prefix_by number res.entry) }
{
    res.map(|(v, l)| (v, l + 1))
}

// The same at the front of a text; the sign counts as a byte read.
fn atoi_simd_parse_prefix_unsigned<T: ParsePos>(
    s: &[u8],
    skip_zeroes: bool,
    skip_plus: bool,
) -> Result<(T, usize), AtoiSimdError<'_>>
    requires { takes_minus T.means ≡ false }
    ensures { prefix_by T.number result ≡ signed_call front T.means skip_zeroes skip_plus s.now }
{
    match s {
        [b'+', rest @ ..] if skip_plus => {
            after_sign(T::atoi_simd_parse_prefix_pos(rest, skip_zeroes))
        }
        _ => T::atoi_simd_parse_prefix_pos(s, skip_zeroes),
    }
}

// A signed number: a `+` or a `-` may stand before it.
fn atoi_simd_parse_signed<T: ParsePos + ParseNeg>(
    s: &[u8],
    skip_zeroes: bool,
    skip_plus: bool,
) -> Result<T, AtoiSimdError<'_>>
    requires { takes_minus T.means ≡ true }
    ensures { checked_by T.number (length s.now) result ≡ signed_call all T.means skip_zeroes skip_plus s.now }
{
    match s {
        [b'+', rest @ ..] if skip_plus => T::atoi_simd_parse_pos(rest, skip_zeroes),
        [b'-', rest @ ..] => T::atoi_simd_parse_neg(rest, skip_zeroes),
        _ => T::atoi_simd_parse_pos(s, skip_zeroes),
    }
}

// The same at the front of a text; the sign counts as a byte read.
fn atoi_simd_parse_prefix_signed<T: ParsePos + ParseNeg>(
    s: &[u8],
    skip_zeroes: bool,
    skip_plus: bool,
) -> Result<(T, usize), AtoiSimdError<'_>>
    requires { takes_minus T.means ≡ true }
    ensures { prefix_by T.number result ≡ signed_call front T.means skip_zeroes skip_plus s.now }
{
    match s {
        [b'+', rest @ ..] if skip_plus => {
            after_sign(T::atoi_simd_parse_prefix_pos(rest, skip_zeroes))
        }
        [b'-', rest @ ..] => after_sign(T::atoi_simd_parse_prefix_neg(rest, skip_zeroes)),
        _ => T::atoi_simd_parse_prefix_pos(s, skip_zeroes),
    }
}

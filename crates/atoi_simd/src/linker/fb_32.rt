// The types of 8, 16 and 32 bits.
ghost use Rattle.std.specs.Prelude.{◌≡◌, ◌≤ℤ◌, true, length, pos, neg_ℤ};
ghost use Rattle.atoi_simd.specs.Answer.{prefix_by, checked_by};
ghost use Rattle.atoi_simd.specs.Calls.{front, all, unsigned_call};
ghost use Rattle.atoi_simd.specs.NumberType.{unsigned, signed, itself, limit};
ghost use Rattle.atoi_simd.specs.WholeTypes.{unsigned_whole, signed_whole};
ghost use Rattle.std.proofs.Common.{lit≤};

use super::{
    Limited, Number, Parse, ParseNeg, ParsePos, atoi_simd_parse_prefix_signed,
    atoi_simd_parse_prefix_unsigned, atoi_simd_parse_signed, atoi_simd_parse_unsigned,
    parse_pos_limited, parse_prefix_pos_limited,
};
use crate::error::AtoiSimdError;
use crate::fallback::{parse_fb_checked_neg, parse_fb_neg};
use crate::limit::{Limit, NarrowLimit};

// What a signed type brings to be read with its value negated. Its least number is a constant of
// its own.
trait NarrowSigned: Number {
    fn least() -> NarrowLimit
        ensures { result.max ≡ limit Self.means true };

    // The value that stands for a negated number.
    fn of_negated(number: i64) -> Self
        requires least { neg_ℤ (pos (limit Self.means true)) ≤ℤ number }
        requires negated { number ≤ℤ pos 0 }
        ensures { Self.number result ≡ number };
}

// What `ParseNeg` hands on to, at each of these types, as `ParsePos` does.
fn parse_neg_narrow<T: NarrowSigned>(s: &[u8], skip_zeroes: bool) -> Result<T, AtoiSimdError<'_>>
    ensures { checked_by T.number (length s.now) result ≡ unsigned_call all T.means true skip_zeroes s.now }
{
    Ok(T::of_negated(parse_fb_checked_neg(s, T::least())?))
}

// The same at the front of a text.
fn parse_prefix_neg_narrow<T: NarrowSigned>(
    s: &[u8],
    skip_zeroes: bool,
) -> Result<(T, usize), AtoiSimdError<'_>>
    ensures { prefix_by T.number result ≡ unsigned_call front T.means true skip_zeroes s.now }
{
    let (val, len) = parse_fb_neg(s, T::least(), skip_zeroes)?;
    Ok((T::of_negated(val), len))
}

impl Number for u8 {
    ghost means = { unsigned 8 };

    ghost number = { pos };

    ghost whole = { unsigned_whole 8 (lit≤ tt) };
}

impl Limited for u8 {
    fn greatest() -> Limit {
        Limit::Narrow(NarrowLimit {
            max: u8::MAX as u64,
        })
    }

    fn of(number: u64) -> u8 {
        number as u8
    }
}

impl ParsePos for u8 {
    fn atoi_simd_parse_pos(s: &[u8], skip_zeroes: bool) -> Result<u8, AtoiSimdError<'_>> {
        parse_pos_limited(s, skip_zeroes)
    }

    fn atoi_simd_parse_prefix_pos(
        s: &[u8],
        skip_zeroes: bool,
    ) -> Result<(u8, usize), AtoiSimdError<'_>> {
        parse_prefix_pos_limited(s, skip_zeroes)
    }
}

impl Parse for u8 {
    fn atoi_simd_parse(
        s: &[u8],
        skip_zeroes: bool,
        skip_plus: bool,
    ) -> Result<u8, AtoiSimdError<'_>> {
        atoi_simd_parse_unsigned(s, skip_zeroes, skip_plus)
    }

    fn atoi_simd_parse_prefix(
        s: &[u8],
        skip_zeroes: bool,
        skip_plus: bool,
    ) -> Result<(u8, usize), AtoiSimdError<'_>> {
        atoi_simd_parse_prefix_unsigned(s, skip_zeroes, skip_plus)
    }
}

impl Number for i8 {
    ghost means = { signed 8 };

    ghost number = { itself };

    ghost whole = { signed_whole 8 (lit≤ tt) };
}

impl Limited for i8 {
    fn greatest() -> Limit {
        Limit::Narrow(NarrowLimit {
            max: i8::MAX as u64,
        })
    }

    fn of(number: u64) -> i8 {
        number as i8
    }
}

impl NarrowSigned for i8 {
    fn least() -> NarrowLimit {
        NarrowLimit {
            max: i8::MAX as u64 + 1,
        }
    }

    fn of_negated(number: i64) -> i8 {
        number as i8
    }
}

impl ParsePos for i8 {
    fn atoi_simd_parse_pos(s: &[u8], skip_zeroes: bool) -> Result<i8, AtoiSimdError<'_>> {
        parse_pos_limited(s, skip_zeroes)
    }

    fn atoi_simd_parse_prefix_pos(
        s: &[u8],
        skip_zeroes: bool,
    ) -> Result<(i8, usize), AtoiSimdError<'_>> {
        parse_prefix_pos_limited(s, skip_zeroes)
    }
}

impl ParseNeg for i8 {
    fn atoi_simd_parse_neg(s: &[u8], skip_zeroes: bool) -> Result<i8, AtoiSimdError<'_>> {
        parse_neg_narrow(s, skip_zeroes)
    }

    fn atoi_simd_parse_prefix_neg(
        s: &[u8],
        skip_zeroes: bool,
    ) -> Result<(i8, usize), AtoiSimdError<'_>> {
        parse_prefix_neg_narrow(s, skip_zeroes)
    }
}

impl Parse for i8 {
    fn atoi_simd_parse(
        s: &[u8],
        skip_zeroes: bool,
        skip_plus: bool,
    ) -> Result<i8, AtoiSimdError<'_>> {
        atoi_simd_parse_signed(s, skip_zeroes, skip_plus)
    }

    fn atoi_simd_parse_prefix(
        s: &[u8],
        skip_zeroes: bool,
        skip_plus: bool,
    ) -> Result<(i8, usize), AtoiSimdError<'_>> {
        atoi_simd_parse_prefix_signed(s, skip_zeroes, skip_plus)
    }
}

impl Number for u16 {
    ghost means = { unsigned 16 };

    ghost number = { pos };

    ghost whole = { unsigned_whole 16 (lit≤ tt) };
}

impl Limited for u16 {
    fn greatest() -> Limit {
        Limit::Narrow(NarrowLimit {
            max: u16::MAX as u64,
        })
    }

    fn of(number: u64) -> u16 {
        number as u16
    }
}

impl ParsePos for u16 {
    fn atoi_simd_parse_pos(s: &[u8], skip_zeroes: bool) -> Result<u16, AtoiSimdError<'_>> {
        parse_pos_limited(s, skip_zeroes)
    }

    fn atoi_simd_parse_prefix_pos(
        s: &[u8],
        skip_zeroes: bool,
    ) -> Result<(u16, usize), AtoiSimdError<'_>> {
        parse_prefix_pos_limited(s, skip_zeroes)
    }
}

impl Parse for u16 {
    fn atoi_simd_parse(
        s: &[u8],
        skip_zeroes: bool,
        skip_plus: bool,
    ) -> Result<u16, AtoiSimdError<'_>> {
        atoi_simd_parse_unsigned(s, skip_zeroes, skip_plus)
    }

    fn atoi_simd_parse_prefix(
        s: &[u8],
        skip_zeroes: bool,
        skip_plus: bool,
    ) -> Result<(u16, usize), AtoiSimdError<'_>> {
        atoi_simd_parse_prefix_unsigned(s, skip_zeroes, skip_plus)
    }
}

impl Number for i16 {
    ghost means = { signed 16 };

    ghost number = { itself };

    ghost whole = { signed_whole 16 (lit≤ tt) };
}

impl Limited for i16 {
    fn greatest() -> Limit {
        Limit::Narrow(NarrowLimit {
            max: i16::MAX as u64,
        })
    }

    fn of(number: u64) -> i16 {
        number as i16
    }
}

impl NarrowSigned for i16 {
    fn least() -> NarrowLimit {
        NarrowLimit {
            max: i16::MAX as u64 + 1,
        }
    }

    fn of_negated(number: i64) -> i16 {
        number as i16
    }
}

impl ParsePos for i16 {
    fn atoi_simd_parse_pos(s: &[u8], skip_zeroes: bool) -> Result<i16, AtoiSimdError<'_>> {
        parse_pos_limited(s, skip_zeroes)
    }

    fn atoi_simd_parse_prefix_pos(
        s: &[u8],
        skip_zeroes: bool,
    ) -> Result<(i16, usize), AtoiSimdError<'_>> {
        parse_prefix_pos_limited(s, skip_zeroes)
    }
}

impl ParseNeg for i16 {
    fn atoi_simd_parse_neg(s: &[u8], skip_zeroes: bool) -> Result<i16, AtoiSimdError<'_>> {
        parse_neg_narrow(s, skip_zeroes)
    }

    fn atoi_simd_parse_prefix_neg(
        s: &[u8],
        skip_zeroes: bool,
    ) -> Result<(i16, usize), AtoiSimdError<'_>> {
        parse_prefix_neg_narrow(s, skip_zeroes)
    }
}

impl Parse for i16 {
    fn atoi_simd_parse(
        s: &[u8],
        skip_zeroes: bool,
        skip_plus: bool,
    ) -> Result<i16, AtoiSimdError<'_>> {
        atoi_simd_parse_signed(s, skip_zeroes, skip_plus)
    }

    fn atoi_simd_parse_prefix(
        s: &[u8],
        skip_zeroes: bool,
        skip_plus: bool,
    ) -> Result<(i16, usize), AtoiSimdError<'_>> {
        atoi_simd_parse_prefix_signed(s, skip_zeroes, skip_plus)
    }
}

impl Number for u32 {
    ghost means = { unsigned 32 };

    ghost number = { pos };

    ghost whole = { unsigned_whole 32 (lit≤ tt) };
}

impl Limited for u32 {
    fn greatest() -> Limit {
        Limit::Narrow(NarrowLimit {
            max: u32::MAX as u64,
        })
    }

    fn of(number: u64) -> u32 {
        number as u32
    }
}

impl ParsePos for u32 {
    fn atoi_simd_parse_pos(s: &[u8], skip_zeroes: bool) -> Result<u32, AtoiSimdError<'_>> {
        parse_pos_limited(s, skip_zeroes)
    }

    fn atoi_simd_parse_prefix_pos(
        s: &[u8],
        skip_zeroes: bool,
    ) -> Result<(u32, usize), AtoiSimdError<'_>> {
        parse_prefix_pos_limited(s, skip_zeroes)
    }
}

impl Parse for u32 {
    fn atoi_simd_parse(
        s: &[u8],
        skip_zeroes: bool,
        skip_plus: bool,
    ) -> Result<u32, AtoiSimdError<'_>> {
        atoi_simd_parse_unsigned(s, skip_zeroes, skip_plus)
    }

    fn atoi_simd_parse_prefix(
        s: &[u8],
        skip_zeroes: bool,
        skip_plus: bool,
    ) -> Result<(u32, usize), AtoiSimdError<'_>> {
        atoi_simd_parse_prefix_unsigned(s, skip_zeroes, skip_plus)
    }
}

impl Number for i32 {
    ghost means = { signed 32 };

    ghost number = { itself };

    ghost whole = { signed_whole 32 (lit≤ tt) };
}

impl Limited for i32 {
    fn greatest() -> Limit {
        Limit::Narrow(NarrowLimit {
            max: i32::MAX as u64,
        })
    }

    fn of(number: u64) -> i32 {
        number as i32
    }
}

impl NarrowSigned for i32 {
    fn least() -> NarrowLimit {
        NarrowLimit {
            max: i32::MAX as u64 + 1,
        }
    }

    fn of_negated(number: i64) -> i32 {
        number as i32
    }
}

impl ParsePos for i32 {
    fn atoi_simd_parse_pos(s: &[u8], skip_zeroes: bool) -> Result<i32, AtoiSimdError<'_>> {
        parse_pos_limited(s, skip_zeroes)
    }

    fn atoi_simd_parse_prefix_pos(
        s: &[u8],
        skip_zeroes: bool,
    ) -> Result<(i32, usize), AtoiSimdError<'_>> {
        parse_prefix_pos_limited(s, skip_zeroes)
    }
}

impl ParseNeg for i32 {
    fn atoi_simd_parse_neg(s: &[u8], skip_zeroes: bool) -> Result<i32, AtoiSimdError<'_>> {
        parse_neg_narrow(s, skip_zeroes)
    }

    fn atoi_simd_parse_prefix_neg(
        s: &[u8],
        skip_zeroes: bool,
    ) -> Result<(i32, usize), AtoiSimdError<'_>> {
        parse_prefix_neg_narrow(s, skip_zeroes)
    }
}

impl Parse for i32 {
    fn atoi_simd_parse(
        s: &[u8],
        skip_zeroes: bool,
        skip_plus: bool,
    ) -> Result<i32, AtoiSimdError<'_>> {
        atoi_simd_parse_signed(s, skip_zeroes, skip_plus)
    }

    fn atoi_simd_parse_prefix(
        s: &[u8],
        skip_zeroes: bool,
        skip_plus: bool,
    ) -> Result<(i32, usize), AtoiSimdError<'_>> {
        atoi_simd_parse_prefix_signed(s, skip_zeroes, skip_plus)
    }
}

// The types of 64 bits.
ghost use Rattle.std.specs.Prelude.{pos};
ghost use Rattle.atoi_simd.specs.NumberType.{unsigned, signed, itself};
ghost use Rattle.atoi_simd.specs.WholeTypes.{unsigned_whole, signed_whole};
ghost use Rattle.std.proofs.Common.{lit≤};

use super::{
    Limited, Number, Parse, ParseNeg, ParsePos, atoi_simd_parse_prefix_signed,
    atoi_simd_parse_prefix_unsigned, atoi_simd_parse_signed, atoi_simd_parse_unsigned,
    parse_pos_limited, parse_prefix_pos_limited,
};
use crate::error::AtoiSimdError;
use crate::fallback::{parse_fb_64_neg, parse_fb_checked_64_neg};
use crate::limit::{Limit, WideLimit};

impl Number for u64 {
    ghost means = { unsigned 64 };

    ghost number = { pos };

    ghost whole = { unsigned_whole 64 (lit≤ tt) };
}

impl Limited for u64 {
    fn greatest() -> Limit {
        Limit::Wide(WideLimit {
            max: u64::MAX,
            len_more: 4,
        })
    }

    fn of(number: u64) -> u64 {
        number
    }
}

impl ParsePos for u64 {
    fn atoi_simd_parse_pos(s: &[u8], skip_zeroes: bool) -> Result<u64, AtoiSimdError<'_>> {
        parse_pos_limited(s, skip_zeroes)
    }

    fn atoi_simd_parse_prefix_pos(
        s: &[u8],
        skip_zeroes: bool,
    ) -> Result<(u64, usize), AtoiSimdError<'_>> {
        parse_prefix_pos_limited(s, skip_zeroes)
    }
}

impl Parse for u64 {
    fn atoi_simd_parse(
        s: &[u8],
        skip_zeroes: bool,
        skip_plus: bool,
    ) -> Result<u64, AtoiSimdError<'_>> {
        atoi_simd_parse_unsigned(s, skip_zeroes, skip_plus)
    }

    fn atoi_simd_parse_prefix(
        s: &[u8],
        skip_zeroes: bool,
        skip_plus: bool,
    ) -> Result<(u64, usize), AtoiSimdError<'_>> {
        atoi_simd_parse_prefix_unsigned(s, skip_zeroes, skip_plus)
    }
}

impl Number for i64 {
    ghost means = { signed 64 };

    ghost number = { itself };

    ghost whole = { signed_whole 64 (lit≤ tt) };
}

impl Limited for i64 {
    fn greatest() -> Limit {
        Limit::Wide(WideLimit {
            max: i64::MAX as u64,
            len_more: 3,
        })
    }

    fn of(number: u64) -> i64 {
        number as i64
    }
}

impl ParsePos for i64 {
    fn atoi_simd_parse_pos(s: &[u8], skip_zeroes: bool) -> Result<i64, AtoiSimdError<'_>> {
        parse_pos_limited(s, skip_zeroes)
    }

    fn atoi_simd_parse_prefix_pos(
        s: &[u8],
        skip_zeroes: bool,
    ) -> Result<(i64, usize), AtoiSimdError<'_>> {
        parse_prefix_pos_limited(s, skip_zeroes)
    }
}

// The readers of 64 bits have the ported crate's names.
impl ParseNeg for i64 {
    fn atoi_simd_parse_neg(s: &[u8], skip_zeroes: bool) -> Result<i64, AtoiSimdError<'_>> {
        parse_fb_checked_64_neg(s, skip_zeroes)
    }

    fn atoi_simd_parse_prefix_neg(
        s: &[u8],
        skip_zeroes: bool,
    ) -> Result<(i64, usize), AtoiSimdError<'_>> {
        parse_fb_64_neg(s, skip_zeroes)
    }
}

impl Parse for i64 {
    fn atoi_simd_parse(
        s: &[u8],
        skip_zeroes: bool,
        skip_plus: bool,
    ) -> Result<i64, AtoiSimdError<'_>> {
        atoi_simd_parse_signed(s, skip_zeroes, skip_plus)
    }

    fn atoi_simd_parse_prefix(
        s: &[u8],
        skip_zeroes: bool,
        skip_plus: bool,
    ) -> Result<(i64, usize), AtoiSimdError<'_>> {
        atoi_simd_parse_prefix_signed(s, skip_zeroes, skip_plus)
    }
}

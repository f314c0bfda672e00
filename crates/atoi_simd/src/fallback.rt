// Digits eight and sixteen at a time, without vector instructions.
//
// A text is read in words of eight bytes; see the crate `words` for what is done with one.
// Where zeros are skipped, a loop leaves out zeros as long as only zeros would fill the words.
// The readers are one for each sign and width, as in the ported crate, and have its names.
ghost use Rattle.std.specs.Prelude.{◌≡◌, ◌+◌, ◌^◌, ◌<◌, ◌≤◌, length, pos, neg_ℤ, ◌≤ℤ◌, IfOk, if◌then◌else◌, nat_eq, slice_index};
ghost use Rattle.std.specs.Char.{is_ascii_digit};
ghost use Rattle.atoi_simd.specs.Answer.{prefix_by, checked_by};
ghost use Rattle.atoi_simd.specs.Block.{block_of_8, block_of_16, block};
ghost use Rattle.atoi_simd.specs.Calls.{narrow, wide, to_end, any_length, negated};
ghost use Rattle.atoi_simd.specs.NumberType.{itself};

use crate::error::AtoiSimdError;
use crate::limit::{NarrowLimit, WideLimit};
use crate::short::parse_short_pos;
use words::{check_len_8, len_zeroes, len_zeroes_16, load_8, process_8, process_16};

// Texts below this length are read byte by byte.
const SHORT: usize = 5;

// What is read from the front of a text: `Ok` where more digits may follow, `Ret` where none do.
// The type and its name are the ported crate's.
#[derive(Clone, Copy)]
pub(crate) enum EarlyReturn<T, E> {
    Ok(T),
    Err(E),
    Ret(T),
}

// Up to eight digits: their value, how many there are, and, where they are eight and it is
// asked, how many of them are leading zeros. `count_zeroes` is the call's own `skip_zeroes`.
fn parse_8(s: &[u8], count_zeroes: bool) -> Result<(u64, u32, u32), AtoiSimdError<'_>>
    ensures { block_of_8 result ≡ block 8 count_zeroes s.now }
{
    let val = load_8(s);
    let len = check_len_8(val);
    if len == 0 {
        return Err(AtoiSimdError::Empty);
    }
    let zeroes = if count_zeroes && len == 8 {
        len_zeroes(val)
    } else {
        0
    };
    Ok((process_8(val, len), len, zeroes))
}

// Up to sixteen digits, in the same way.
fn parse_16_by_8(s: &[u8], count_zeroes: bool) -> EarlyReturn<(u64, u32, u32), AtoiSimdError<'_>>
    ensures { block_of_16 result ≡ block 16 count_zeroes s.now }
{
    let val = load_8(s);
    let len = check_len_8(val);
    match len {
        0 => EarlyReturn::Err(AtoiSimdError::Empty),
        1 => EarlyReturn::Ret((val & 0xF, 1, 0)),
        2..=7 => EarlyReturn::Ret((process_8(val, len), len, 0)),
        _ => {
            let val_h = load_8(&s[8..]);
            let len = 8 + check_len_8(val_h);
            let value = process_16(val, val_h, len);
            if len < 16 {
                return EarlyReturn::Ret((value, len, 0));
            }
            let zeroes = if count_zeroes {
                len_zeroes_16(val, val_h)
            } else {
                0
            };
            EarlyReturn::Ok((value, 16, zeroes))
        }
    }
}

// Whether a digit stands right behind the first sixteen bytes.
fn goes_on(s: &[u8]) -> bool
    ensures { result ≡ is_ascii_digit (slice_index s.now 16) }
{
    s.get(16).is_some_and(|c| c.is_ascii_digit())
}

// The number of 8 to 32 bits at the front, within `limit`.
pub(crate) fn parse_fb_pos(
    s: &[u8],
    limit: NarrowLimit,
    skip_zeroes: bool,
) -> Result<(u64, usize), AtoiSimdError<'_>>
    ensures value { prefix_by pos result ≡ narrow limit.max skip_zeroes s.now }
    ensures fits { IfOk result (λ p. p.0 ≤ limit.max) }
{
    let mut rest = s;
    let mut skipped = 0;
    // no `for`: it starts again with what is left, and ends with a value and a length
    let (val, len) = loop {
        match parse_16_by_8(rest, skip_zeroes) {
            EarlyReturn::Ok((v, l, zeroes)) => {
                if skip_zeroes && zeroes > 0 {
                    skipped += zeroes as usize;
                    rest = &rest[zeroes as usize..];
                    continue;
                }
                break (v, l);
            }
            EarlyReturn::Err(e) => {
                // `Empty`, and so a number where zeros were skipped
                if skipped > 0 {
                    return Ok((0, skipped));
                }
                return Err(e);
            }
            EarlyReturn::Ret((v, l, _)) => break (v, l),
        }
    };
    if val > limit.max {
        return Err(AtoiSimdError::Overflow(rest));
    }
    if len == 16 && goes_on(rest) {
        return Err(AtoiSimdError::Size(17, rest));
    }
    Ok((val, len as usize + skipped))
}

// The number with the other sign, down to the least i64.
fn negative(val: u64) -> i64
    requires { val ≤ 2 ^ 63 }
    ensures { result ≡ neg_ℤ (pos val) }
{
    val.wrapping_neg().cast_signed()
}

// The number of 8 to 32 bits at the front, its value negated.
pub(crate) fn parse_fb_neg(
    s: &[u8],
    limit: NarrowLimit,
    skip_zeroes: bool,
) -> Result<(i64, usize), AtoiSimdError<'_>>
    ensures value { prefix_by itself result ≡ negated (narrow limit.max skip_zeroes s.now) }
    ensures fits { IfOk result (λ p. (neg_ℤ (pos limit.max) ≤ℤ p.0) × (p.0 ≤ℤ pos 0)) }
{
    let (val, len) = parse_fb_pos(s, limit, skip_zeroes)?;
    Ok((negative(val), len))
}

// How many zeros lead twenty-four bytes, from those of the first sixteen and of the last eight.
fn zeroes_of_24(zeroes: u32, zeroes_more: u32) -> u32
    requires { zeroes_more ≤ 8 }
    ensures value { result ≡ (if nat_eq zeroes 16 then 16 + zeroes_more else zeroes) }
    ensures least { zeroes ≤ result }
{
    if zeroes == 16 {
        16 + zeroes_more
    } else {
        zeroes
    }
}

// The number of 64 bits at the front, within `limit`.
pub(crate) fn parse_fb_64_pos(
    s: &[u8],
    limit: WideLimit,
    skip_zeroes: bool,
) -> Result<(u64, usize), AtoiSimdError<'_>>
    ensures value { prefix_by pos result ≡ wide limit.max skip_zeroes s.now }
    ensures fits { IfOk result (λ p. p.0 ≤ limit.max) }
{
    let mut rest = s;
    let mut skipped = 0;
    // no `for`: it starts again with what is left
    loop {
        let (val, zeroes) = match parse_16_by_8(rest, skip_zeroes) {
            EarlyReturn::Ok((v, _, z)) => (v, z),
            EarlyReturn::Err(e) => {
                // `Empty`, and so a number where zeros were skipped
                if skipped > 0 {
                    return Ok((0, skipped));
                }
                return Err(e);
            }
            EarlyReturn::Ret((v, l, _)) => return Ok((v, l as usize + skipped)),
        };
        let (more, len, zeroes_more) = match parse_8(&rest[16..], skip_zeroes) {
            Ok(v) => v,
            Err(_) => return Ok((val, 16 + skipped)),
        };
        if len > limit.len_more {
            if skip_zeroes && zeroes > 0 {
                let zeroes = zeroes_of_24(zeroes, zeroes_more);
                skipped += zeroes as usize;
                rest = &rest[zeroes as usize..];
                continue;
            }
            return Err(AtoiSimdError::Size(len as usize + 16 + skipped, rest));
        }
        let value = limit
            .joined(val, more, len)
            .ok_or(AtoiSimdError::Overflow(rest))?;
        return Ok((value, len as usize + 16 + skipped));
    }
}

// The i64 at the front, its value negated.
pub(crate) fn parse_fb_64_neg(
    s: &[u8],
    skip_zeroes: bool,
) -> Result<(i64, usize), AtoiSimdError<'_>>
    ensures { prefix_by itself result ≡ negated (wide (2 ^ 63) skip_zeroes s.now) }
{
    let (val, len) = parse_fb_64_pos(s, WideLimit::LEAST_I64, skip_zeroes)?;
    Ok((negative(val), len))
}

// A number that was read at the front of the text, where it has to be all of it.
fn to_end<'a>(
    s: &'a [u8],
    read: Result<(u64, usize), AtoiSimdError<'a>>,
) -> Result<u64, AtoiSimdError<'a>>
    ensures value { checked_by pos (length s.now) result ≡ to_end s.now (prefix_by pos read.entry) }
    ensures same { IfOk result (λ v. IfOk read.entry (λ p. v ≡ p.0)) }
{
    let (val, len) = read?;
    if len != s.len() {
        return Err(AtoiSimdError::Invalid64(val, len, s));
    }
    Ok(val)
}

// All of the text as a number of 8 to 32 bits, within `limit`.
pub(crate) fn parse_fb_checked_pos(s: &[u8], limit: NarrowLimit) -> Result<u64, AtoiSimdError<'_>>
    ensures value { checked_by pos (length s.now) result ≡ to_end s.now (any_length limit.max s.now) }
    ensures fits { IfOk result (λ v. v ≤ limit.max) }
{
    to_end(s, parse_short_pos(s, limit.max))
}

// All of the text as a number of 8 to 32 bits, its value negated.
pub(crate) fn parse_fb_checked_neg(s: &[u8], limit: NarrowLimit) -> Result<i64, AtoiSimdError<'_>>
    ensures value { checked_by itself (length s.now) result ≡ negated (to_end s.now (any_length limit.max s.now)) }
    ensures fits { IfOk result (λ v. (neg_ℤ (pos limit.max) ≤ℤ v) × (v ≤ℤ pos 0)) }
{
    Ok(negative(parse_fb_checked_pos(s, limit)?))
}

// The number of 64 bits at the front, a short text byte by byte.
fn parse_short_or_fb_64_pos(
    s: &[u8],
    limit: WideLimit,
    skip_zeroes: bool,
) -> Result<(u64, usize), AtoiSimdError<'_>>
    ensures value { prefix_by pos result ≡ wide limit.max skip_zeroes s.now }
    ensures fits { IfOk result (λ p. p.0 ≤ limit.max) }
{
    if s.len() < SHORT {
        return parse_short_pos(s, limit.max);
    }
    parse_fb_64_pos(s, limit, skip_zeroes)
}

// All of the text as a number of 64 bits, within `limit`.
pub(crate) fn parse_fb_checked_64_pos(
    s: &[u8],
    limit: WideLimit,
    skip_zeroes: bool,
) -> Result<u64, AtoiSimdError<'_>>
    ensures value { checked_by pos (length s.now) result ≡ to_end s.now (wide limit.max skip_zeroes s.now) }
    ensures fits { IfOk result (λ v. v ≤ limit.max) }
{
    to_end(s, parse_short_or_fb_64_pos(s, limit, skip_zeroes))
}

// All of the text as an i64, its value negated.
pub(crate) fn parse_fb_checked_64_neg(s: &[u8], skip_zeroes: bool) -> Result<i64, AtoiSimdError<'_>>
    ensures { checked_by itself (length s.now) result ≡ negated (to_end s.now (wide (2 ^ 63) skip_zeroes s.now)) }
{
    Ok(negative(parse_fb_checked_64_pos(s, WideLimit::LEAST_I64, skip_zeroes)?))
}

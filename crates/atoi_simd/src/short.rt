// Digits one byte at a time: for the checked calls, and for texts too short to gain from words.
ghost use Rattle.std.specs.Prelude.{◌≡◌, ◌+◌, ◌*◌, ◌<◌, ◌≤◌, pos, IfOk, nat_lt};
ghost use Rattle.atoi_simd.specs.Answer.{prefix_by};
ghost use Rattle.atoi_simd.specs.Calls.{any_length};

use crate::error::AtoiSimdError;

// Whether `val * shift + more` is above `max`, without computing it.
pub(crate) fn overflows(val: u64, shift: u64, more: u64, max: u64) -> bool
    requires { more < shift }
    ensures { result ≡ nat_lt max (val * shift + more) }
{
    val >= max / shift && (val > max / shift || more > max % shift)
}

// The digits at the front, as a number of at most `max`.
pub(crate) fn parse_short_pos(s: &[u8], max: u64) -> Result<(u64, usize), AtoiSimdError<'_>>
    requires { 9 ≤ max }
    ensures value { prefix_by pos result ≡ any_length max s.now }
    ensures fits { IfOk result (λ p. p.0 ≤ max) }
{
    let Some(first @ b'0'..=b'9') = s.first() else {
        return Err(AtoiSimdError::Empty);
    };
    let mut res = (first & 0xF) as u64;
    // by index: to enumerate what is behind the first digit takes 6 to 9 % more instructions
    for i in 1..s.len() {
        let c = s[i];
        if !c.is_ascii_digit() {
            return Ok((res, i));
        }
        let digit = (c & 0xF) as u64;
        if overflows(res, 10, digit, max) {
            return Err(AtoiSimdError::Overflow(s));
        }
        res = res * 10 + digit;
    }
    Ok((res, s.len()))
}

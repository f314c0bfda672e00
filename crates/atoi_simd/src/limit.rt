// How large a number may be.
ghost use Rattle.std.specs.Prelude.{◌≡◌, ◌+◌, ◌-◌, ◌*◌, ◌^◌, ◌<◌, ◌≤◌};
ghost use Rattle.std.specs.Option.{SomeIff};
ghost use Rattle.atoi_simd.specs.Calls.{digit_count};

use crate::short::overflows;

// The largest magnitude of a number of 8 to 32 bits.
#[derive(Clone, Copy)]
pub(crate) struct NarrowLimit {
    pub(crate) max: u64,
    ghost some: { 9 ≤ max },
    ghost narrow: { max < 2 ^ 32 },
}

// The largest magnitude of a number of 64 bits, and how many digits it has after its first sixteen.
#[derive(Clone, Copy)]
pub(crate) struct WideLimit {
    pub(crate) max: u64,
    pub(crate) len_more: u32,
    ghost wide: { 2 ^ 63 - 1 ≤ max },
    ghost digits: { len_more + 16 ≡ digit_count max },
}

impl WideLimit {
    // That of an i64 whose value is negated.
    pub(crate) const LEAST_I64: WideLimit = WideLimit {
        max: i64::MAX as u64 + 1,
        len_more: 3,
    };

    // The number of sixteen digits and `len` more, where it is within the limit.
    pub(crate) fn joined(self, first: u64, more: u64, len: u32) -> Option<u64>
        requires first { first < 10 ^ 16 }
        requires more { more < 10 ^ len }
        requires len { len ≤ self.len_more }
        ensures { SomeIff result (first * 10 ^ len + more ≤ self.max) (first * 10 ^ len + more) }
    {
        let shift = 10_u64.pow(len);
        if len == self.len_more && overflows(first, shift, more, self.max) {
            return None;
        }
        Some(first * shift + more)
    }
}

// The limit, and so the reader, of a type.
#[derive(Clone, Copy)]
pub(crate) enum Limit {
    Narrow(NarrowLimit),
    Wide(WideLimit),
}

// The payload of a record: its numbers one after another, each in as many bytes as its type has,
// the lowest byte first.
//
// Both ways are total. A run that finds no room is not written at all, and of a payload that is
// too short the missing bytes count as 0.
//
// `out` and `at` go side by side: a part of `out` from the place on is not there where the place
// lies past the end.
ghost use Rattle.std.specs.Prelude.{◌≡◌, ◌+◌, ◌-◌, ◌%◌, ◌^◌, ◌≤◌, min, length};
ghost use Rattle.std.proofs.Common.{rules};
ghost use Rattle.std.specs.List.{AllByRecursion};
ghost use Rattle.words.specs.Bytes.{bytes_le};
ghost use Rattle.records.specs.FieldType.{Regular, in_bytes};
ghost use Rattle.records.specs.Payload.{code, decode, payload, payload_size, numbers_of, put, Written};

use crate::number::{Field, Numbers};
use crate::places::tail;
use words::load_8;

// A number type with its codes: the bits of a number as they stand in a payload.
pub trait PayloadField: Field {
    fn to_code(&self) -> u64
        ensures { result ≡ code (in_bytes Self.WIDTH Self.means) (Self.number self.now) };

    // The number whose code stands in the lowest bytes.
    fn of_code(bits: u64) -> Self
        ensures { Self.number result ≡ decode (in_bytes Self.WIDTH Self.means) (bits % 256 ^ Self.WIDTH) };

    ghost few: { Self.WIDTH ≤ 8 };
}

// A run of numbers with its payload.
pub trait Payload: Numbers {
    // How many bytes it has, up to the greatest `usize`; no run of a lawful kind has so many.
    fn size() -> usize
        ensures value { result ≡ min (payload_size Self.Numbers.types) (2 ^ 64 - 1) }
        ensures exact { AllByRecursion Regular Self.Numbers.types → length Self.Numbers.types ≤ 8 → result ≡ payload_size Self.Numbers.types };

    // Writes it at the place and answers the place behind it, or `None` where there is no room.
    fn write(&self, out: &mut [u8], at: usize) -> Option<usize>
        ensures { Written (payload_size Self.Numbers.types) (payload Self.Numbers.types (Self.Numbers.list self.now)) out.old at result out.new };

    // The run whose payload the bytes begin with.
    fn of_bytes(bytes: &[u8]) -> Self
        ensures { Self.Numbers.list result ≡ numbers_of Self.Numbers.types bytes.now };
}

// Puts the code's lowest bytes at the place.
fn put_code(out: &mut [u8], at: usize, width: usize, bits: u64)
    requires room { at + width ≤ length out.old }
    requires few { width ≤ 8 }
    ensures { out.new ≡ put out.old at (bytes_le width bits) }
{
    out[at..at + width].copy_from_slice(&bits.to_le_bytes()[..width]);
}

impl Payload for () {
    fn size() -> usize {
        0
    }

    fn write(&self, out: &mut [u8], at: usize) -> Option<usize> {
        (at <= out.len()).then_some(at)
    }

    fn of_bytes(_bytes: &[u8]) {}
}

impl<T: PayloadField, R: Payload> Payload for (T, R) {
    fn size() -> usize {
        T::WIDTH.saturating_add(R::size())
    }

    // What follows the first number is written first: it has room only where the whole has.
    fn write(&self, out: &mut [u8], at: usize) -> Option<usize> {
        let behind = self.1.write(out, at.checked_add(T::WIDTH)?)?;
        put_code(out, at, T::WIDTH, self.0.to_code());
        Some(behind)
    }

    fn of_bytes(bytes: &[u8]) -> (T, R) {
        let first = T::of_code(load_8(bytes));
        let rest = R::of_bytes(tail(bytes, T::WIDTH));
        (first, rest)
    }
}

// By hand for each type, as a macro may hold no ghost item, and the casts are each type's own.
impl PayloadField for u8 {
    ghost few = { Prim.search rules };

    fn to_code(&self) -> u64 {
        u64::from(*self)
    }

    fn of_code(bits: u64) -> u8 {
        (bits % (1 << 8)) as u8
    }
}

impl PayloadField for i8 {
    ghost few = { Prim.search rules };

    fn to_code(&self) -> u64 {
        u64::from(self.cast_unsigned())
    }

    fn of_code(bits: u64) -> i8 {
        ((bits % (1 << 8)) as u8).cast_signed()
    }
}

impl PayloadField for u16 {
    ghost few = { Prim.search rules };

    fn to_code(&self) -> u64 {
        u64::from(*self)
    }

    fn of_code(bits: u64) -> u16 {
        (bits % (1 << 16)) as u16
    }
}

impl PayloadField for i16 {
    ghost few = { Prim.search rules };

    fn to_code(&self) -> u64 {
        u64::from(self.cast_unsigned())
    }

    fn of_code(bits: u64) -> i16 {
        ((bits % (1 << 16)) as u16).cast_signed()
    }
}

impl PayloadField for u32 {
    ghost few = { Prim.search rules };

    fn to_code(&self) -> u64 {
        u64::from(*self)
    }

    fn of_code(bits: u64) -> u32 {
        (bits % (1 << 32)) as u32
    }
}

impl PayloadField for i32 {
    ghost few = { Prim.search rules };

    fn to_code(&self) -> u64 {
        u64::from(self.cast_unsigned())
    }

    fn of_code(bits: u64) -> i32 {
        ((bits % (1 << 32)) as u32).cast_signed()
    }
}

impl PayloadField for u64 {
    ghost few = { Prim.search rules };

    fn to_code(&self) -> u64 {
        *self
    }

    fn of_code(bits: u64) -> u64 {
        bits
    }
}

impl PayloadField for i64 {
    ghost few = { Prim.search rules };

    fn to_code(&self) -> u64 {
        self.cast_unsigned()
    }

    fn of_code(bits: u64) -> i64 {
        bits.cast_signed()
    }
}

// The numbers of a line, one after another.
//
// A refusal's place is an offset in the whole line, so `line` and `at` go side by side.
ghost use Rattle.std.specs.Prelude.{◌≡◌, ℕ, List, [], ◌∷◌, ℤ, int_lt};
ghost use Rattle.records.specs.FieldType.{FieldType, in_bytes};
ghost use Rattle.records.specs.Kind.{order_by};
ghost use Rattle.records.specs.Lexicographic.{lex_before};
ghost use Rattle.records.specs.Line.{next, number_at, read_numbers, stops};
ghost use Rattle.records.specs.Meaning.{outcome_by, numeral_by};

use crate::places::{count_of, tail};
use crate::refusal::{Refusal, fault_at};
use atoi_simd::{Parse, parse_prefix};
use std::cmp::Ordering;

// A number type that a kind may list.
pub trait Field: Parse + Drop {
    // How many bytes a number takes in a payload.
    const WIDTH: usize;

    ghost WIDTH: { ℕ };

    // Which of two numbers comes first. Each type says it: by its `Ord`, it would ask one of every
    // type that a kind may list, and a law of it.
    fn compare(&self, other: &Self) -> Ordering
        ensures { result ≡ order_by int_lt (Self.number self.now) (Self.number other.now) };
}

// The number that starts at the place, and the place behind it.
fn number_here<T: Field>(line: &[u8], at: usize) -> Result<(T, usize), Refusal<'_>>
    ensures { outcome_by (numeral_by T.number) result ≡ number_at (in_bytes T.WIDTH T.means) line.now at }
{
    let read = parse_prefix::<T>(tail(line, at), true, true);
    let (value, count) = read.map_err(|fault| fault_at(at, fault))?;
    Ok((value, at + count))
}

// Whether a number may end in front of these bytes: a space stands first, or nothing.
fn stops(rest: &[u8]) -> bool
    ensures { result ≡ stops rest.now }
{
    rest.first().is_none_or(|byte| *byte == b' ')
}

// The next number from the place on, and the place behind it.
pub fn number_at<T: Field>(line: &[u8], at: usize) -> Result<(T, usize), Refusal<'_>>
    ensures { outcome_by (numeral_by T.number) result ≡ next (in_bytes T.WIDTH T.means) line.now at }
{
    let from = at + count_of(tail(line, at), b' ');
    let (value, behind) = number_here::<T>(line, from)?;
    if !stops(tail(line, behind)) {
        return Err(Refusal::NoSpace { at: behind });
    }
    Ok((value, behind))
}

// A run of numbers of given types: a pair of the first and the rest, or `()` where there is none.
pub trait Numbers: Sized + Drop {
    ghost types: { List FieldType };

    ghost list: { Self → List ℤ };

    // Which of two runs comes first, number by number. It is no `Ord`, with which a struct over two
    // kinds has no proof.
    fn compare(&self, other: &Self) -> Ordering
        ensures { result ≡ order_by lex_before (list self.now) (list other.now) };

    // Reads them from the place on, to the line's end.
    fn read(line: &[u8], at: usize) -> Result<Self, Refusal<'_>>
        ensures { outcome_by list result ≡ read_numbers types line.now at };
}

impl Numbers for () {
    ghost types = { [] };

    ghost list = { λ _. [] };

    fn compare(&self, _other: &()) -> Ordering {
        Ordering::Equal
    }

    fn read(line: &[u8], at: usize) -> Result<(), Refusal<'_>> {
        if at < line.len() {
            return Err(Refusal::SpaceAfterLast { at });
        }
        Ok(())
    }
}

impl<T: Field, R: Numbers> Numbers for (T, R) {
    ghost types = { in_bytes T.WIDTH T.means ∷ R.types };

    ghost list = { λ p. T.number p.0 ∷ R.list p.1 };

    fn compare(&self, other: &(T, R)) -> Ordering {
        self.0
            .compare(&other.0)
            .then_with(|| self.1.compare(&other.1))
    }

    fn read(line: &[u8], at: usize) -> Result<(T, R), Refusal<'_>> {
        let (value, behind) = number_at::<T>(line, at)?;
        Ok((value, R::read(line, behind)?))
    }
}

// By hand for each type, as a macro may hold no ghost item, and a width is each type's own.
impl Field for u8 {
    const WIDTH: usize = size_of::<u8>();

    ghost WIDTH = { 1 };

    fn compare(&self, other: &u8) -> Ordering {
        self.cmp(other)
    }
}

impl Field for i8 {
    const WIDTH: usize = size_of::<i8>();

    ghost WIDTH = { 1 };

    fn compare(&self, other: &i8) -> Ordering {
        self.cmp(other)
    }
}

impl Field for u16 {
    const WIDTH: usize = size_of::<u16>();

    ghost WIDTH = { 2 };

    fn compare(&self, other: &u16) -> Ordering {
        self.cmp(other)
    }
}

impl Field for i16 {
    const WIDTH: usize = size_of::<i16>();

    ghost WIDTH = { 2 };

    fn compare(&self, other: &i16) -> Ordering {
        self.cmp(other)
    }
}

impl Field for u32 {
    const WIDTH: usize = size_of::<u32>();

    ghost WIDTH = { 4 };

    fn compare(&self, other: &u32) -> Ordering {
        self.cmp(other)
    }
}

impl Field for i32 {
    const WIDTH: usize = size_of::<i32>();

    ghost WIDTH = { 4 };

    fn compare(&self, other: &i32) -> Ordering {
        self.cmp(other)
    }
}

impl Field for u64 {
    const WIDTH: usize = size_of::<u64>();

    ghost WIDTH = { 8 };

    fn compare(&self, other: &u64) -> Ordering {
        self.cmp(other)
    }
}

impl Field for i64 {
    const WIDTH: usize = size_of::<i64>();

    ghost WIDTH = { 8 };

    fn compare(&self, other: &i64) -> Ordering {
        self.cmp(other)
    }
}

// Sheets, checked whole, and then read record by record.
//
// Places are offsets in the whole sheet, as refusals give them, and so go beside all of its bytes.
ghost use Rattle.std.specs.Prelude.{◌≡◌, ◌+◌, ◌*◌, ◌≤◌, length, ⊤, None as Nothing, IfOk};
ghost use Rattle.records.specs.Line.{Section};
ghost use Rattle.records.specs.Meaning.{named_by, row_by};
ghost use Rattle.records.specs.Outcome.{got, and_then};
ghost use Rattle.records.specs.Payload.{payload_size};
ghost use Rattle.model.specs.Reading.{Both, after, behind, counts, read_records, read_frame, read_sheet, record_at};
ghost use Rattle.sheets.specs.Handed.{mapped, standing, record_in};
ghost use Rattle.sheets.specs.Refusals.{read_by};

use crate::frame::{header_at, record_size};
use crate::refusal::SheetRefusal;
use records::kind::{LineKind, RecordKind, SheetKind, read_payload};
use records::line::Named;
use records::tail;
use std::alloc::AllocError;
use std::marker::PhantomData;

// The most records that a section has.
const MOST: usize = 4096;

// Whether the row comes after the one before it, if there is one.
fn follows<K: LineKind>(last: &Option<K>, row: &K) -> bool
    ensures { result ≡ after K.means (row_by K.numbers last.now) (K.numbers row.now) }
{
    last.as_ref().is_none_or(|last| last.compare(row).is_lt())
}

// Checks `n` records from the place on, and answers how many they are.
fn read_records<K: LineKind>(bytes: &[u8], at: usize, n: usize) -> Result<usize, SheetRefusal>
    requires { at + n * payload_size K.means.types ≤ length bytes.now }
    ensures { read_by (λ k. k) result ≡ mapped length (read_records K.means bytes.now n at Nothing) }
{
    let size = record_size::<K>();
    let mut last: Option<K> = None;
    for i in 0..n {
        let place = at + i * size;
        let Some(row) = read_payload::<K>(tail(bytes, place)) else {
            return Err(SheetRefusal::ConditionFails { at: place });
        };
        if !follows(&last, &row) {
            return Err(SheetRefusal::NotAfter { at: place });
        }
        last = Some(row);
    }
    Ok(n)
}

// Checks the frame at the place, and answers how many records it has and the place behind it.
fn read_frame<K: SheetKind>(bytes: &[u8], at: usize) -> Result<(usize, usize), SheetRefusal>
    ensures { read_by (λ p. p) result ≡ mapped (λ xs. (length xs, behind bytes.now at)) (read_frame K.means bytes.now at) }
{
    if bytes.len().saturating_sub(at) < 6 {
        return Err(SheetRefusal::NoHeader { at });
    }
    let (length, number) = header_at(bytes, at);
    if number != K::number() {
        return Err(SheetRefusal::OtherKind { at: at + 4 });
    }
    let length = length as usize;
    let size = record_size::<K>();
    if length % size != 0 || length / size > MOST {
        return Err(SheetRefusal::BadLength { at });
    }
    let end = at + 6 + length;
    if bytes.len() < end {
        return Err(SheetRefusal::CutShort { at: at + 6 });
    }
    let n = read_records::<K>(bytes, at + 6, length / size)?;
    Ok((n, end))
}

// Checks a sheet whole, and answers how many records its sections have.
pub fn read_sheet<A: SheetKind, B: SheetKind>(bytes: &[u8]) -> Result<(usize, usize), SheetRefusal>
    ensures { read_by (λ p. p) result ≡ mapped counts (read_sheet A.means B.means bytes.now) }
{
    let (m, middle) = read_frame::<A>(bytes, 0)?;
    let (n, end) = read_frame::<B>(bytes, middle)?;
    if end < bytes.len() {
        return Err(SheetRefusal::BytesAfter { at: end });
    }
    Ok((m, n))
}

// Record `i` of those that stand in the bytes from the place on, as far as these reach.
fn row_in<K: LineKind>(bytes: &[u8], from: usize, i: usize) -> Result<K, SheetRefusal>
    ensures { (s : Section) → read_by (λ row. record { section = s; numbers = K.numbers row }) result
        ≡ standing s K.means bytes.now from i }
{
    let size = record_size::<K>();
    if bytes.len().saturating_sub(from) / size <= i {
        return Err(SheetRefusal::NoRecord);
    }
    read_payload(tail(bytes, from + i * size)).ok_or(SheetRefusal::NoRecord)
}

// Record `i` of section 1 or 2, counted from 0, in bytes that were checked to be a sheet of so many
// records; a `CheckedSheet` has them together. A section is asked for by its number, since one that
// is neither is refused.
pub fn find_record<A: LineKind, B: LineKind>(
    bytes: &[u8],
    first: usize,
    second: usize,
    section: u8,
    i: usize,
) -> Result<Named<A, B>, SheetRefusal>
    ensures value { read_by (named_by A.numbers B.numbers) result ≡ record_in A.means B.means bytes.now first second section i }
    ensures checked { (both : Both) → read_sheet A.means B.means bytes.now ≡ got both
        → counts both ≡ (first, second)
        → read_by (named_by A.numbers B.numbers) result ≡ record_at both section i }
{
    if section == 1 && i < first {
        return Ok(Named::First(row_in(bytes, 6, i)?));
    }
    if section == 2 && i < second {
        let from = first.saturating_mul(record_size::<A>()).saturating_add(12);
        return Ok(Named::Second(row_in(bytes, from, i)?));
    }
    Err(SheetRefusal::NoRecord)
}

// A sheet that was checked whole, with its sections' counts.
pub struct CheckedSheet<'a, A: SheetKind, B: SheetKind> {
    bytes: &'a [u8],
    first: usize,
    second: usize,
    kinds: PhantomData<(A, B)>,
    ghost checked: { mapped counts (read_sheet A.means B.means bytes.now) ≡ got (first, second) },
}

// `Clone` cannot be derived for a struct with a ghost field and type parameters.
impl<'a, A: SheetKind, B: SheetKind> Clone for CheckedSheet<'a, A, B> {
    ghost is_clone = { λ x y. y ≡ x };

    ghost is_infallible = { λ _. ⊤ };

    fn clone(&self) -> Result<CheckedSheet<'a, A, B>, AllocError> {
        Ok(*self)
    }
}

impl<'a, A: SheetKind, B: SheetKind> Copy for CheckedSheet<'a, A, B> {}

impl<'a, A: SheetKind, B: SheetKind> CheckedSheet<'a, A, B> {
    // Checks a sheet whole.
    pub fn read(bytes: &'a [u8]) -> Result<CheckedSheet<'a, A, B>, SheetRefusal>
        ensures answer { read_by (λ s. (s.first, s.second)) result ≡ mapped counts (read_sheet A.means B.means bytes.now) }
        ensures bytes { IfOk result (λ s. s.bytes.now ≡ bytes.now) }
    {
        let (first, second) = read_sheet::<A, B>(bytes)?;
        Ok(CheckedSheet {
            bytes,
            first,
            second,
            kinds: PhantomData,
        })
    }

    // How many records each section has.
    pub fn counts(&self) -> (usize, usize)
        ensures kept { result ≡ (self.now.first, self.now.second) }
        ensures read { got result ≡ mapped counts (read_sheet A.means B.means self.now.bytes.now) }
    {
        (self.first, self.second)
    }

    // Record `i` of section 1 or 2, counted from 0. A section that is neither is refused.
    pub fn record(&self, section: u8, i: usize) -> Result<Named<A, B>, SheetRefusal>
        ensures value { read_by (named_by A.numbers B.numbers) result
            ≡ record_in A.means B.means self.now.bytes.now self.now.first self.now.second section i }
        ensures checked { read_by (named_by A.numbers B.numbers) result
            ≡ and_then (read_sheet A.means B.means self.now.bytes.now) (λ both. record_at both section i) }
    {
        find_record(self.bytes, self.first, self.second, section, i)
    }
}

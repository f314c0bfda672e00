// Record kinds: what a kind means, and what its plain rows answer.
//
// The lower part, `RecordKind`, has the numbers, their types, the condition and the order; the
// upper part, `LineKind`, adds the word. A row is plain: nothing in its type keeps the condition.
// Above both, `SheetKind` adds what a sheet wants.
//
// Places are offsets in the whole line or buffer, and so go beside it.
ghost use Rattle.std.specs.Prelude.{◌≡◌, List, length, ℤ};
ghost use Rattle.records.specs.Kind.{Kind, Lawful, ordering};
ghost use Rattle.records.specs.Line.{read_behind};
ghost use Rattle.records.specs.Meaning.{outcome_by, row_by};
ghost use Rattle.records.specs.Payload.{payload, payload_size, record_of, ReadsBack, Written};

use crate::number::Numbers;
use crate::payload::Payload;
use crate::refusal::Refusal;
use std::cmp::Ordering;

pub trait RecordKind: Sized + Copy {
    // the row's numbers as a run
    type Run: Payload;

    ghost means: { Kind };

    // the numbers that a row stands for
    ghost numbers: { Self → List ℤ };

    fn of_run(run: Self::Run) -> Self
        ensures { numbers result ≡ Self.Run.Numbers.list run };

    fn run(&self) -> Self::Run
        ensures { Self.Run.Numbers.list result ≡ numbers self.now };

    fn meets_condition(&self) -> bool
        ensures { result ≡ means.condition (numbers self.now) };

    // Which of two records comes first, or that they are equal. Each kind says it, since its order
    // need not be that of its run.
    fn compare(&self, other: &Self) -> Ordering
        ensures { result ≡ ordering means (numbers self.now) (numbers other.now) };

    ghost lawful: { Lawful means };

    ghost types: { Self.Run.Numbers.types ≡ means.types };
}

pub trait LineKind: RecordKind {
    fn word() -> &'static [u8]
        ensures { result.now ≡ Self.means.word };
}

// A kind whose records stand on sheets.
pub trait SheetKind: LineKind {
    // The kind's number on a sheet.
    fn number() -> u16
        ensures { result ≡ Self.means.number };

    // a row has a number for each type
    ghost shape: { (x : Self) → length (Self.numbers x) ≡ length Self.means.types };
}

// What stands behind the word, as a row that meets the condition.
pub fn read_behind<K: RecordKind>(line: &[u8], at: usize) -> Result<K, Refusal<'_>>
    ensures { outcome_by K.numbers result ≡ read_behind K.means line.now at }
{
    let row = K::of_run(K::Run::read(line, at)?);
    if !row.meets_condition() {
        return Err(Refusal::ConditionFails);
    }
    Ok(row)
}

// Writes the record's payload at the place and answers the place behind it, or `None` where there
// is no room.
pub fn write_payload<K: RecordKind>(row: &K, out: &mut [u8], at: usize) -> Option<usize>
    ensures { Written (payload_size K.means.types) (payload K.means.types (K.numbers row.now)) out.old at result out.new }
{
    row.run().write(out, at)
}

// The record whose payload the bytes begin with, or `None` where the condition fails.
pub fn read_payload<K: RecordKind>(bytes: &[u8]) -> Option<K>
    ensures value { row_by K.numbers result ≡ record_of K.means bytes.now }
    ensures reads_back { ReadsBack K.means bytes.now (row_by K.numbers result) }
{
    let row = K::of_run(K::Run::of_bytes(bytes));
    row.meets_condition().then_some(row)
}

// Frames and sheets, written into a buffer that the caller lends.
//
// A place goes beside the buffer: a frame is put where the one before it ends, as the definition
// says.
ghost use Rattle.std.specs.Prelude.{◌≡◌, ◌+◌, ◌-◌, ◌*◌, ◌^◌, ◌≤◌, min, ◌++◌, map, length, take};
ghost use Rattle.records.specs.Payload.{payload_size, put};
ghost use Rattle.model.specs.Sheet.{payloads, frame, Writes};
ghost use Rattle.sheets.specs.Refusals.{wrote};

use crate::frame::{record_size, write_header};
use crate::refusal::TooShort;
use records::kind::{LineKind, RecordKind, SheetKind, write_payload};

// How many bytes the frame of so many records has, up to the greatest `usize`.
pub fn frame_size<K: RecordKind>(n: usize) -> usize
    ensures { result ≡ min (6 + n * payload_size K.means.types) (2 ^ 64 - 1) }
{
    n.saturating_mul(record_size::<K>()).saturating_add(6)
}

// Writes the payloads of the rows, one after another, from the place on.
fn write_rows<K: SheetKind>(rows: &[K], out: &mut [u8], at: usize)
    requires { at + length rows.now * payload_size K.means.types ≤ length out.old }
    ensures { out.new ≡ put out.old at (payloads K.means (map K.numbers rows.now)) }
{
    let size = record_size::<K>();
    for (i, row) in rows.iter().enumerate() {
        let _ = write_payload(row, out, at + i * size);
    }
}

// Writes the frame of the rows from the place on.
fn write_frame<K: SheetKind>(rows: &[K], out: &mut [u8], at: usize)
    requires { at + 6 + length rows.now * payload_size K.means.types ≤ length out.old }
    ensures { out.new ≡ put out.old at (frame K.means (map K.numbers rows.now)) }
{
    let length = ((rows.len() * record_size::<K>()) % (1 << 32)) as u32;
    write_header(out, at, length, K::number());
    write_rows(rows, out, at + 6);
}

// Writes the sheet of the rows of two sections into the buffer's first bytes, and answers how many
// bytes it has.
pub fn write_sheet<A: SheetKind, B: SheetKind>(
    first: &[A],
    second: &[B],
    out: &mut [u8],
) -> Result<usize, TooShort>
    ensures { Writes (frame A.means (map A.numbers first.now) ++ frame B.means (map B.numbers second.now))
        out.old (wrote result) out.new }
{
    let middle = frame_size::<A>(first.len());
    let size = middle.saturating_add(frame_size::<B>(second.len()));
    if out.len() < size {
        return Err(TooShort);
    }
    write_frame(first, out, 0);
    write_frame(second, out, middle);
    Ok(size)
}

// Writes the sheet of the first `m` and `n` rows of two sections, as far as there are so many, as
// `write_sheet` does. The counts go beside the rows, as they may be more than these are.
pub fn write_sheet_up_to<A: SheetKind, B: SheetKind>(
    first: &[A],
    m: usize,
    second: &[B],
    n: usize,
    out: &mut [u8],
) -> Result<usize, TooShort>
    ensures { Writes (frame A.means (map A.numbers (take m first.now)) ++ frame B.means (map B.numbers (take n second.now)))
        out.old (wrote result) out.new }
{
    let first = &first[..m.min(first.len())];
    write_sheet(first, &second[..n.min(second.len())], out)
}

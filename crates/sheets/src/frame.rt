// What a frame begins with, and how many bytes a record of it has.
//
// Places are offsets in the whole sheet, and a kind's number is what stands there.
ghost use Rattle.std.specs.Prelude.{◌≡◌, ◌+◌, ◌≤◌, ◌++◌, length};
ghost use Rattle.words.specs.Bytes.{bytes_le};
ghost use Rattle.records.specs.Payload.{payload_size, put};
ghost use Rattle.model.specs.Reading.{length_at, number_at};

use records::kind::RecordKind;
use records::payload::Payload;
use records::tail;

// The payload's length and the kind's number, which are laid out as the numbers of a record are.
type Header = (u32, (u16, ()));

// How many bytes a record has.
pub(crate) fn record_size<K: RecordKind>() -> usize
    ensures value { result ≡ payload_size K.means.types }
    ensures some { 1 ≤ result }
    ensures few { result ≤ 64 }
{
    K::Run::size()
}

// Writes a frame's first six bytes at the place.
pub(crate) fn write_header(out: &mut [u8], at: usize, size: u32, number: u16)
    requires { at + 6 ≤ length out.old }
    ensures { out.new ≡ put out.old at (bytes_le 4 size ++ bytes_le 2 number) }
{
    let header: Header = (size, (number, ()));
    let _ = header.write(out, at);
}

// The payload's length and the kind's number that the frame at the place gives.
pub(crate) fn header_at(bytes: &[u8], at: usize) -> (u32, u16)
    ensures size { result.0 ≡ length_at bytes.now at }
    ensures number { result.1 ≡ number_at bytes.now at }
{
    let (size, (number, ())) = Header::of_bytes(tail(bytes, at));
    (size, number)
}

// Text put into a buffer: words, decimal numbers, and bytes in hexadecimal.
//
// The place goes beside the buffer: each text is put where the one before it ends.
ghost use Rattle.std.specs.Prelude.{◌≡◌, ◌+◌, ◌*◌, ◌<◌, ◌≤◌, length, take, drop, decimal};
ghost use Rattle.records.specs.Payload.{put};
ghost use Rattle.station.specs.Output.{hex_digit, hex_of, refusal_line};

use itoa::Buffer;

// Puts the text at the place, and answers the place behind it.
pub(crate) fn put_text(out: &mut [u8], at: usize, text: &[u8]) -> usize
    requires { at + length text.now ≤ length out.old }
    ensures after { out.new ≡ put out.old at text.now }
    ensures behind { result ≡ at + length text.now }
{
    let end = at + text.len();
    out[at..end].copy_from_slice(text);
    end
}

// Puts the number's decimal digits at the place, and answers the place behind them.
pub(crate) fn put_decimal(out: &mut [u8], at: usize, n: usize) -> usize
    requires { at + 20 ≤ length out.old }
    ensures after { out.new ≡ put out.old at (decimal n) }
    ensures behind { result ≡ at + length (decimal n) }
{
    put_text(out, at, Buffer::new().format(n).as_bytes())
}

// The digit of base sixteen.
fn hex_digit(d: u8) -> u8
    requires { d < 16 }
    ensures { result ≡ hex_digit d }
{
    if d < 10 { b'0' + d } else { b'a' - 10 + d }
}

// Puts the bytes that stand from `from` on, `len` of them, in hexadecimal at the place `to`, which
// is not before them. It goes from the last byte to the first, so that none is overwritten before
// it is read.
pub(crate) fn spread(out: &mut [u8], from: usize, len: usize, to: usize)
    requires room { to + 2 * len ≤ length out.old }
    requires behind { from ≤ to }
    ensures { out.new ≡ put out.old to (hex_of (take len (drop from out.old))) }
{
    for i in (0..len).rev() {
        let byte = out[from + i];
        out[to + 2 * i] = hex_digit(byte / 16);
        out[to + 2 * i + 1] = hex_digit(byte % 16);
    }
}

// Puts the line that says which line is refused, why and where, all by the numbers that are
// printed, at the buffer's front, and answers how many bytes it has.
pub(crate) fn put_refusal(out: &mut [u8], line: usize, number: u8, place: usize) -> usize
    requires { 100 ≤ length out.old }
    ensures after { out.new ≡ put out.old 0 (refusal_line line number place) }
    ensures len { result ≡ length (refusal_line line number place) }
{
    let at = put_text(out, 0, b"line ");
    let at = put_decimal(out, at, line);
    let at = put_text(out, at, b" refused ");
    let at = put_decimal(out, at, number as usize);
    let at = put_text(out, at, b" at ");
    let at = put_decimal(out, at, place);
    put_text(out, at, b"\n")
}

// Eight bytes of a text in one u64, the first byte lowest, and the digits among them.
//
// A test or a sum is made on all eight bytes at once, so that a run of digits costs a few
// operations and no loop. Every function here is total: it says what it answers for any word.
#![tactic(auto)]

ghost use Rattle.std.specs.Prelude.{◌≡◌, ◌+◌, ◌≤◌, ◌++◌, length, take};
ghost use Rattle.std.specs.Char.{is_ascii_digit};
ghost use Rattle.std.specs.List.{prefix_len};
ghost use Rattle.words.specs.Bytes.{bytes_le, word_le, front, is_zero, value_of, nibble_value};

// The first eight bytes of a text; where it is shorter, the bytes above its last one are 0.
//
// Each length has its arm: 4 to 7 in one, by a computed shift, cost short texts 5 % more.
pub fn load_8(s: &[u8]) -> u64
    ensures { bytes_le 8 result ≡ front 8 s.now }
{
    match s.len() {
        8.. => u64::from_le_bytes(chunk(s)),
        7 => load_4(&s[3..]) << 24 | load_4(s),
        6 => load_4(&s[2..]) << 16 | load_4(s),
        5 => load_4(&s[1..]) << 8 | s[0] as u64,
        4 => load_4(s),
        3 => (u16::from_le_bytes(chunk(&s[1..])) as u64) << 8 | s[0] as u64,
        2 => u16::from_le_bytes(chunk(s)) as u64,
        1 => s[0] as u64,
        _ => 0,
    }
}

// The word of the first four bytes of a text that has as many.
fn load_4(s: &[u8]) -> u64
    requires { 4 ≤ length s.now }
    ensures { result ≡ word_le (take 4 s.now) }
{
    u32::from_le_bytes(chunk(s)) as u64
}

// The first N bytes of a text that has as many.
fn chunk<const N: usize>(s: &[u8]) -> [u8; N]
    requires { N ≤ length s.now }
    ensures { result ≡ take N s.now }
{
    *s.first_chunk().unwrap()
}

// How many digits stand at the front of the eight bytes.
//
// Adding 6 to a digit's byte keeps its high half 3, and to `:` and above does not; so both high
// halves are 3 just for a digit. A carry out of a byte comes only from one that is no digit, and
// alters only bytes behind it.
pub fn check_len_8(val: u64) -> u32
    ensures { result ≡ prefix_len is_ascii_digit (bytes_le 8 val) }
{
    let high = (val.wrapping_add(0x0606_0606_0606_0606) & 0xF0F0_F0F0_F0F0_F0F0) >> 4;
    let low = val & 0xF0F0_F0F0_F0F0_F0F0;
    let res = (high | low) ^ 0x3333_3333_3333_3333;
    res.trailing_zeros() / 8
}

// How many zeros stand at the front of the eight bytes.
pub fn len_zeroes(val: u64) -> u32
    ensures { result ≡ prefix_len is_zero (bytes_le 8 val) }
{
    let xor = val ^ 0x3030_3030_3030_3030;
    xor.trailing_zeros() / 8
}

// How many zeros stand at the front of sixteen bytes, `val_h` being the later eight.
pub fn len_zeroes_16(val: u64, val_h: u64) -> u32
    ensures { result ≡ prefix_len is_zero (bytes_le 8 val ++ bytes_le 8 val_h) }
{
    let zeroes = len_zeroes(val);
    if zeroes == 8 {
        8 + len_zeroes(val_h)
    } else {
        zeroes
    }
}

// The value of the first `len` of the eight bytes, all eight where `len` is larger.
//
// The bytes are moved up so that the last one is highest and zeros stand in front. Then
// neighbours are joined: digits to pairs, pairs to fours, fours to all eight.
pub fn process_8(val: u64, len: u32) -> u64
    ensures value { result ≡ nibble_value len (bytes_le 8 val) }
    ensures digits { len ≤ prefix_len is_ascii_digit (bytes_le 8 val) → result ≡ value_of len (bytes_le 8 val) }
{
    let mut val = match len {
        0 => 0,
        1..=8 => val << (64 - 8 * len),
        _ => val,
    };
    val = (val & 0x0F0F_0F0F_0F0F_0F0F).wrapping_mul(0xA01) >> 8;
    val = (val & 0x00FF_00FF_00FF_00FF).wrapping_mul(0x64_0001) >> 16;
    (val & 0x0000_FFFF_0000_FFFF).wrapping_mul(0x2710_0000_0001) >> 32
}

// The value of the first `len` of sixteen bytes, `val_h` being the later eight.
pub fn process_16(val: u64, val_h: u64, len: u32) -> u64
    ensures value { result ≡ nibble_value len (bytes_le 8 val ++ bytes_le 8 val_h) }
    ensures digits { len ≤ prefix_len is_ascii_digit (bytes_le 8 val ++ bytes_le 8 val_h) → result ≡ value_of len (bytes_le 8 val ++ bytes_le 8 val_h) }
{
    if len <= 8 {
        return process_8(val, len);
    }
    let more = (len - 8).min(8);
    process_8(val, 8) * 10_u64.pow(more) + process_8(val_h, more)
}

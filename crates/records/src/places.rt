// Runs of bytes at the front of others, and what stands from a place on.
ghost use Rattle.std.specs.Prelude.{◌≡◌, ◌≤◌, ◌==◌, not, length, drop};
ghost use Rattle.std.specs.List.{prefix_len};

// How many bytes at the front are `byte`. It is not one with the next, whose test a closure would
// only say again at each call.
pub(crate) fn count_of(bytes: &[u8], byte: u8) -> usize
    ensures value { result ≡ prefix_len (λ b. b == byte) bytes.now }
    ensures bound { result ≤ length bytes.now }
{
    bytes.iter().take_while(|b| **b == byte).count()
}

// How many bytes stand in front of the first `byte`; all of them, where there is none.
pub(crate) fn count_before(bytes: &[u8], byte: u8) -> usize
    ensures value { result ≡ prefix_len (λ b. not (b == byte)) bytes.now }
    ensures bound { result ≤ length bytes.now }
{
    bytes.iter().take_while(|b| **b != byte).count()
}

// What stands from the place on.
pub fn tail(bytes: &[u8], from: usize) -> &[u8]
    ensures { result.now ≡ drop from bytes.now }
{
    bytes.get(from..).unwrap_or(&[])
}

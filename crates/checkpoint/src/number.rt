// Room in a slice, and numbers as bytes, low byte first.
ghost use Rattle.std.specs.Prelude.{◌≡◌, ◌+◌, ◌≤◌, length, leb};
ghost use Rattle.lists.specs.Lists.{part, over};
ghost use Rattle.rules.specs.Checkpoint.{number_of, bytes_of};

// There is room for `size` from `at` on, of n.
pub(crate) fn has_room(n: usize, at: usize, size: usize) -> bool
    ensures { result ≡ leb (at + size) n }
{
    size <= n && at <= n - size
}

// The N bytes from `at` on.
fn bytes_at<const N: usize>(bytes: &[u8], at: usize) -> [u8; N]
    requires { at + N ≤ length bytes.now }
    ensures { result ≡ part at N bytes.now }
{
    let mut found = [0; N];
    found.copy_from_slice(&bytes[at..at + N]);
    found
}

// The number of the eight bytes from `at` on: an epoch, a row.
pub(crate) fn word_at(bytes: &[u8], at: usize) -> u64
    requires { at + 8 ≤ length bytes.now }
    ensures { result ≡ number_of (part at 8 bytes.now) }
{
    u64::from_le_bytes(bytes_at(bytes, at))
}

// Of two: how many rows a partition has.
pub(crate) fn count_at(bytes: &[u8], at: usize) -> usize
    requires { at + 2 ≤ length bytes.now }
    ensures { result ≡ number_of (part at 2 bytes.now) }
{
    u16::from_le_bytes(bytes_at(bytes, at)) as usize
}

// The low `size` bytes of x to out[at..].
pub(crate) fn put_number(out: &mut [u8], at: usize, size: usize, x: u64)
    requires { (at + size ≤ length out.old) × (size ≤ 8) }
    ensures { out.new ≡ over at (bytes_of size x) out.old }
{
    out[at..at + size].copy_from_slice(&x.to_le_bytes()[..size]);
}

// Flags as bits, row 0 lowest in byte 0, unused bits of the last byte 0. 01 "Who sees a row", last paragraph.
ghost use Rattle.std.specs.Prelude.{◌≡◌, cond, ◌++◌, ◌≤◌, ◌+◌, ◌*◌, length, take, drop};
ghost use Rattle.rules.specs.Bitmap.{byte_of, packed};

// The byte of the eight flags from `from` on, the first lowest.
fn byte_at(shown: &[bool], from: usize) -> u8
    requires { from + 8 ≤ length shown.now }
    ensures { result ≡ byte_of (take 8 (drop from shown.now)) }
{
    let mut byte = 0;
    for k in (0..8).rev() {
        byte = u8::from(shown[from + k]) + 2 * byte;
    }
    byte
}

// The first n bytes.
pub(crate) fn pack(shown: &[bool], n: usize, bitmap: &mut [u8])
    requires { (8 * n ≤ length shown.now) × (n ≤ length bitmap.old) }
    ensures { bitmap.new ≡ packed n shown.now ++ drop n bitmap.old }
{
    for j in 0..n {
        bitmap[j] = byte_at(shown, 8 * j);
    }
}

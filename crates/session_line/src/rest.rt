// What is left of a buffer after its whole lines: the front of a line that is yet to come. 01 "A session".
ghost use Rattle.std.specs.Prelude.{◌≡◌, length};
ghost use Rattle.lists.specs.Lists.{over};
ghost use Rattle.session_line.specs.Rest.{kept};

use crate::limits::KEPT_MAX;

// The bytes from `from` to `to` moved to the front; answers how many. Of more than 16,385 the others are dropped: the
// line that they begin is `?`, however it goes on.
pub fn keep_rest(buffer: &mut [u8], from: usize, to: usize) -> usize
    ensures size { result ≡ length (kept buffer.old from to) }
    ensures bytes { buffer.new ≡ over 0 (kept buffer.old from to) buffer.old }
{
    if to < from {
        return 0;
    }
    if buffer.len() < from {
        return 0;
    }
    let n = KEPT_MAX.min(to - from).min(buffer.len() - from);
    buffer.copy_within(from..from + n, 0);
    n
}

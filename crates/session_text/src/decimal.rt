// A number as decimal digits, none of them a zero in front. 01 "A session".
ghost use Rattle.std.specs.Prelude.{◌≡◌, ◌+◌, ◌≤◌, length};
ghost use Rattle.lists.specs.Lists.{over};
ghost use Rattle.session_text.specs.Print.{decimal};

// A u64 has at most so many.
const DIGITS_MAX: usize = 20;

// How many digits n has: by comparing it with the powers of 10. The loop is over these, and counts no index.
pub(crate) fn digits(n: u64) -> usize
    ensures { result ≡ length (decimal n) }
{
    let mut count = 1;
    let mut power: u64 = 10;
    while power <= n {
        count += 1;
        if count == DIGITS_MAX {
            return count;
        }
        power *= 10;
    }
    count
}

// The digits of n from index `at` on, the last written first. The loop is over what is left of n, and counts no index.
pub(crate) fn put_digits(n: u64, out: &mut [u8], at: usize, count: usize)
    requires { (count ≡ length (decimal n)) × (at + count ≤ length out.old) }
    ensures { out.new ≡ over at (decimal n) out.old }
{
    let mut end = at + count;
    let mut rest = n;
    while 10 <= rest {
        end -= 1;
        out[end] = 48 + (rest % 10) as u8;
        rest /= 10;
    }
    out[at] = 48 + rest as u8;
}

// A line written at the front of a buffer: a letter, a number, values. 01 "A session".
ghost use Rattle.std.specs.Prelude.{◌≡◌, ◌+◌, ◌≤◌, length, leb};
ghost use Rattle.lists.specs.Lists.{over, gather};
ghost use Rattle.session_text.specs.Print.{spaced, line_of};
ghost use Rattle.session_text.specs.Lines.{size_in, written_in};

use crate::decimal::{digits, put_digits};

// Whether a blank and a number for each value have room.
fn values_fit(values: &[u64], room: usize) -> bool
    ensures { result ≡ leb (length (gather spaced values.now)) room }
{
    let mut left = room;
    for value in values {
        let n = 1 + digits(*value);
        if left < n {
            return false;
        }
        left -= n;
    }
    true
}

// A blank and a number from index `at` on; answers the index after them.
fn put_number(n: u64, out: &mut [u8], at: usize) -> usize
    requires { at + length (spaced n) ≤ length out.old }
    ensures { (result ≡ at + length (spaced n)) × (out.new ≡ over at (spaced n) out.old) }
{
    out[at] = b' ';
    let from = at + 1;
    let count = digits(n);
    put_digits(n, out, from, count);
    from + count
}

// The same for each value in order.
fn put_values(values: &[u64], out: &mut [u8], at: usize) -> usize
    requires { at + length (gather spaced values.now) ≤ length out.old }
    ensures { (result ≡ at + length (gather spaced values.now))
        × (out.new ≡ over at (gather spaced values.now) out.old) }
{
    let mut end = at;
    for value in values {
        end = put_number(*value, out, end);
    }
    end
}

// Whether a line has room: a letter, a blank and the number, the values, the line's end.
fn line_fits(number: u64, values: &[u64], room: usize) -> bool
    ensures { result ≡ leb (length (line_of 0 number values.now)) room }
{
    let head = digits(number) + 3;
    if room < head {
        return false;
    }
    values_fit(values, room - head)
}

fn put_parts(letter: u8, number: u64, values: &[u64], out: &mut [u8]) -> usize
    requires { length (line_of letter number values.now) ≤ length out.old }
    ensures { (result ≡ length (line_of letter number values.now))
        × (out.new ≡ over 0 (line_of letter number values.now) out.old) }
{
    out[0] = letter;
    let after = put_number(number, out, 1);
    let end = put_values(values, out, after);
    out[end] = b'\n';
    end + 1
}

// The whole line, where it has room; answers how many bytes it has.
pub fn print_line(letter: u8, number: u64, values: &[u64], out: &mut [u8]) -> usize
    ensures answer { result ≡ size_in (line_of letter number values.now) out.old }
    ensures words { out.new
        ≡ written_in (line_of letter number values.now) out.old }
{
    if !line_fits(number, values, out.len()) {
        return 0;
    }
    put_parts(letter, number, values, out)
}

// The numbers of a line: decimal digits, one blank between words. 01 "A session"; docs/DECISIONS.md D5.
ghost use Rattle.std.specs.Prelude.{◌≡◌, true, cond, ◌≤◌, ◌<◌, length};
ghost use Rattle.lists.specs.Lists.{over};
ghost use Rattle.session_text.specs.Grammar.{are_numbers, numbers_of, line_max};
ghost use Rattle.session_text.specs.Numbers.{stepped};

// The bytes passed: how many numbers ended, and the value so far of the last, where it has a digit.
#[derive(Clone, Copy)]
pub struct Passed {
    pub count: usize,
    pub value: Option<u64>,
}

// With one byte more.
fn step(p: Passed, byte: u8) -> Option<Passed>
    requires { p.count < line_max }
    ensures { result ≡ stepped p byte }
{
    if byte == b' ' {
        p.value?;
        return Some(Passed {
            count: p.count + 1,
            value: None,
        });
    }
    if !byte.is_ascii_digit() {
        return None;
    }
    let tens = p.value.unwrap_or(0).checked_mul(10)?;
    let value = tens.checked_add((byte - b'0') as u64)?;
    Some(Passed {
        count: p.count,
        value: Some(value),
    })
}

// How many numbers these bytes are.
pub(crate) fn count_numbers(bytes: &[u8]) -> Option<usize>
    requires { length bytes.now ≤ line_max }
    ensures { result ≡ cond (are_numbers bytes.now) (Some (length (numbers_of bytes.now))) None }
{
    let mut p = Passed {
        count: 0,
        value: None,
    };
    for byte in bytes {
        p = step(p, *byte)?;
    }
    p.value?;
    Some(p.count + 1)
}

// The numbers that these bytes are, at the front of a buffer.
pub(crate) fn put_numbers(bytes: &[u8], numbers: &mut [u64])
    requires { (are_numbers bytes.now ≡ true) × (length (numbers_of bytes.now) ≤ length numbers.old) }
    ensures { numbers.new ≡ over 0 (numbers_of bytes.now) numbers.old }
{
    let mut value = 0;
    let mut k = 0;
    for byte in bytes {
        if *byte == b' ' {
            numbers[k] = value;
            k += 1;
            value = 0;
        } else {
            value = 10 * value + (*byte - b'0') as u64;
        }
    }
    numbers[k] = value;
}

// The lines of a session: a line as a call, and an answer as a line. 01 "A session".
#![tactic(auto)]

use crate::calls::{from_of, parse_letter, parse_numbers};
use rules::Command;

mod calls;
mod decimal;
mod line;
mod numbers;

ghost use Rattle.std.specs.Prelude.{◌≡◌, ◌==◌, cond, length, leb, position};
ghost use Rattle.lists.specs.Lists.{over};
ghost use Rattle.session_text.specs.Grammar.{parsed, numbers_in, is_call};
ghost use Rattle.session_text.specs.Print.{question};
ghost use Rattle.session_text.specs.Lines.{size_in, written_in, line_end};

pub use calls::letter_of;
pub use line::print_line;

// A call, with so many rows beside it.
#[derive(Clone, Copy)]
pub struct Call {
    pub command: Command,
    pub rows: usize,
}

// 01's longest line, without its end: line_max of specs/Grammar.antt.
const LINE_MAX: usize = 16384;

// What a line without its end is. The numbers of a call stand at the front of the buffer, so that the rows of an append
// are numbers[2..2 + rows]; a line that is no call writes nothing, and so does one whose numbers have no room. 8,192
// words are room enough for every line.
pub fn parse(line: &[u8], numbers: &mut [u64]) -> Option<Call>
    ensures answer { result ≡ cond (leb (length (numbers_in line.now)) (length numbers.old))
        (parsed line.now) None }
    ensures words { numbers.new ≡ cond (is_call result)
        (over 0 (numbers_in line.now) numbers.old) numbers.old }
{
    if LINE_MAX < line.len() {
        return None;
    }
    if line.len() < 3 {
        return parse_letter(line);
    }
    if line[1] != b' ' {
        return None;
    }
    let letter = line[0];
    parse_numbers(letter, line[2], &line[from_of(letter)..], numbers)
}

// Where the first line end stands.
fn first_end(bytes: &[u8]) -> Option<usize>
    ensures { result ≡ position (λ b. b == 10) bytes.now }
{
    bytes.iter().position(|b| *b == b'\n')
}

// The index of the first line end at or after `from`, or the length where there is none.
pub fn line_end(input: &[u8], from: usize) -> usize
    ensures { result ≡ line_end input.now from }
{
    if input.len() <= from {
        return input.len();
    }
    let rest = &input[from..];
    from + first_end(rest).unwrap_or(rest.len())
}

// The answer to a line that is no call.
pub fn print_question(out: &mut [u8]) -> usize
    ensures answer { result ≡ size_in question out.old }
    ensures words { out.new ≡ written_in question out.old }
{
    if out.len() < 2 {
        return 0;
    }
    out[0] = b'?';
    out[1] = b'\n';
    2
}

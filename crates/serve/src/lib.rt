// A session on standard input and output: a call a line, and a line that answers it. 01 "A session".
// No contract can say what is read or written. So the loop does nothing but read, take a turn and write; what a turn
// makes of the bytes is said of slices (src/turn.rt).
#![tactic(auto)]

ghost use Rattle.std.specs.Prelude.{◌≡◌, ◌+◌, ◌≤◌, length, take, IfOk};
ghost use Rattle.store.specs.Kept.{store_of};
ghost use Rattle.serve.specs.Turn.{Roomy, Opened};
ghost use Rattle.serve.specs.Run.{RunTo};
ghost use Rattle.serve.specs.Ends.{status_of, IsStatus};

use crate::turn::{Session, is_done, opening, turn};
use rules::limits::ROWS_LENT;
use session_line::limits::NUMBERS_MAX;
use std::io::{Read, Stderr, Stdin, Stdout, Write};

mod turn;

// Bytes of input, and of answers, that a session holds at a time.
const BUFFER_MAX: usize = 65536;

// What failed.
#[derive(Clone, Copy)]
enum Failure {
    Unread,
    Unwritten,
}

// More of standard input, behind the bytes held, where more is wanted; answers how many bytes. 0 where more was wanted:
// the input has ended.
fn read_more(from: Stdin, s: Session, input: &mut [u8]) -> Result<usize, Failure>
    requires { s.end ≤ length input.old }
    ensures count { IfOk result (λ n. s.end + n ≤ length input.new) }
    ensures same { take s.end input.new ≡ take s.end input.old }
{
    if !s.reads {
        return Ok(0);
    }
    let mut stdin = from;
    stdin.read(&mut input[s.end..]).map_err(|_| Failure::Unread)
}

// The answers of a turn, to standard output.
fn send(to: Stdout, s: Session, out: &[u8]) -> Result<(), Failure>
    requires { s.written ≤ length out.now }
{
    let mut stdout = to;
    stdout
        .write_all(&out[..s.written])
        .map_err(|_| Failure::Unwritten)
}

// Turn after turn, until all is answered. A proved loop has to end: so many turns no run uses up.
fn serve(
    from: Stdin,
    to: Stdout,
    s: &mut Session,
    rows: &mut [u64],
    numbers: &mut [u64],
    input: &mut [u8],
    out: &mut [u8],
) -> Result<(), Failure>
    requires roomy { Roomy numbers.old input.old out.old }
    requires opened { Opened s.old }
    ensures { RunTo (store_of s.old.state rows.old s.old.table.at) result s.new
        input.new (store_of s.new.state rows.new s.new.table.at) }
{
    'turns: for _ in 0..u64::MAX {
        let count = read_more(from, *s, input)?;
        *s = turn(*s, count, input, rows, numbers, out);
        send(to, *s, out)?;
        if is_done(*s) {
            return Ok(());
        }
    }
    Err(Failure::Unread)
}

// A whole session.
fn session(from: Stdin, to: Stdout) -> Result<(), Failure> {
    let mut rows = [0u64; ROWS_LENT];
    let mut numbers = [0u64; NUMBERS_MAX];
    let mut input = [0u8; BUFFER_MAX];
    let mut out = [0u8; BUFFER_MAX];
    let mut s = opening(&mut rows);
    serve(
        from,
        to,
        &mut s,
        &mut rows,
        &mut numbers,
        &mut input,
        &mut out,
    )
}

// A failure is a line on standard error. Where that cannot be written either, the status alone says it.
fn tell(to: Stderr, failure: Failure) {
    let mut stderr = to;
    let _ = match failure {
        Failure::Unread => stderr.write_all(b"session: cannot read standard input\n"),
        Failure::Unwritten => stderr.write_all(b"session: cannot write standard output\n"),
    };
}

// The exit status of a program: 0 where all input was read and all answers were written, and else 1.
fn status(ended: Result<(), Failure>) -> i32
    ensures { result ≡ status_of ended }
{
    match ended {
        Ok(()) => 0,
        Err(_) => 1,
    }
}

// A whole session as a program: answers its exit status, 0 or 1. This only limits it: which of the two lies with what
// is read and written, of which no contract can speak; `serve` and `status` say what each stands for.
pub fn nizgulk_session(input: Stdin, output: Stdout, errors: Stderr) -> i32
    ensures { IsStatus result }
{
    let ended = session(input, output);
    if let Err(failure) = ended {
        tell(errors, failure);
    }
    status(ended)
}

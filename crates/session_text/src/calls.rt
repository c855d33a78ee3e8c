// A call from its letter and its numbers, and the letter of a call. 01 "A session".
ghost use Rattle.std.specs.Prelude.{◌≡◌, [], ◌∷◌, ◌≤◌, ◌<◌, length};
ghost use Rattle.session_text.specs.Grammar.{with_one, with_two, with_more, scan_by, bare, numbers_of};
ghost use Rattle.session_text.specs.Grammar.{manager_letter, letter_of, parsed_short, line_max};
ghost use Rattle.session_text.specs.Calls.{call_by, call_on, numbers_call, from_of, in_room, if_call};

use crate::Call;
use crate::numbers::{count_numbers, put_numbers};
use rules::{Command, ManagerCall, Reader};

fn manager_letter(call: ManagerCall) -> u8
    ensures { result ≡ manager_letter call }
{
    match call {
        ManagerCall::Begin => b'B',
        ManagerCall::Commit { txn: _ } => b'C',
        ManagerCall::BeginRo { epoch: _ } => b'R',
        ManagerCall::EndRo { ticket: _ } => b'E',
        ManagerCall::AdvanceLse { target: _ } => b'L',
    }
}

pub fn letter_of(command: Command) -> u8
    ensures { result ≡ letter_of command }
{
    match command {
        Command::Create { start: _ } => b'N',
        Command::Manage(call) => manager_letter(call),
        Command::Append {
            txn: _,
            partition: _,
        } => b'A',
        Command::Clear {
            txn: _,
            partition: _,
        } => b'D',
        Command::RollBack { txn: _ } => b'X',
        Command::Scan {
            reader: _,
            partition: _,
        } => b'S',
        Command::Purge { partition: _ } => b'P',
        Command::Save { epoch: _ } => b'K',
        Command::Recover => b'V',
    }
}

// A call without rows.
fn bare(command: Command) -> Option<Call>
    ensures { result ≡ bare command }
{
    Some(Call { command, rows: 0 })
}

#[tactic(auto, unfolding(crate::specs::Grammar::with_one))]
fn with_one(letter: u8, a: u64) -> Option<Call>
    ensures { result ≡ with_one letter a }
{
    match letter {
        b'C' => bare(Command::Manage(ManagerCall::Commit { txn: a })),
        b'X' => bare(Command::RollBack { txn: a }),
        b'R' => bare(Command::Manage(ManagerCall::BeginRo { epoch: a })),
        b'E' => bare(Command::Manage(ManagerCall::EndRo { ticket: a })),
        b'L' => bare(Command::Manage(ManagerCall::AdvanceLse { target: a })),
        b'P' => bare(Command::Purge { partition: a }),
        _ => None,
    }
}

#[tactic(auto, unfolding(crate::specs::Grammar::with_two))]
fn with_two(letter: u8, a: u64, b: u64) -> Option<Call>
    ensures { result ≡ with_two letter a b }
{
    match letter {
        b'A' => bare(Command::Append {
            txn: a,
            partition: b,
        }),
        b'D' => bare(Command::Clear {
            txn: a,
            partition: b,
        }),
        _ => None,
    }
}

#[tactic(auto, unfolding(crate::specs::Grammar::with_more))]
fn with_more(letter: u8, a: u64, b: u64, rows: usize) -> Option<Call>
    ensures { result ≡ with_more letter a b rows }
{
    if letter != b'A' {
        return None;
    }
    let command = Command::Append {
        txn: a,
        partition: b,
    };
    Some(Call { command, rows })
}

// l and an epoch, or p and a ticket; then the partition.
#[tactic(auto, unfolding(crate::specs::Grammar::scan_by))]
fn scan(who: u8, a: u64, b: u64) -> Option<Call>
    ensures { result ≡ scan_by who (a ∷ b ∷ []) }
{
    match who {
        b'l' => bare(Command::Scan {
            reader: Reader::Rw(a),
            partition: b,
        }),
        b'p' => bare(Command::Scan {
            reader: Reader::Ro(a),
            partition: b,
        }),
        _ => None,
    }
}

// Of so many numbers, at least one, the first two being a and b.
fn call_of(letter: u8, who: u8, count: usize, a: u64, b: u64) -> Option<Call>
    requires { 1 ≤ count }
    ensures { result ≡ call_by letter who count a b }
{
    if letter == b'S' {
        if count == 2 {
            return scan(who, a, b);
        }
        return None;
    }
    if count == 1 {
        return with_one(letter, a);
    }
    if count == 2 {
        return with_two(letter, a, b);
    }
    with_more(letter, a, b, count - 2)
}

// The call of these numbers.
fn call_with(letter: u8, who: u8, numbers: &[u64]) -> Option<Call>
    requires { 1 ≤ length numbers.now }
    ensures { result ≡ call_on letter who numbers.now }
{
    if numbers.len() == 1 {
        return call_of(letter, who, 1, numbers[0], 0);
    }
    call_of(letter, who, numbers.len(), numbers[0], numbers[1])
}

// The call whose numbers these bytes are. Whether it is one is seen before its numbers are written.
pub(crate) fn parse_numbers(letter: u8, who: u8, bytes: &[u8], numbers: &mut [u64]) -> Option<Call>
    requires { length bytes.now ≤ line_max }
    ensures answer { result ≡ in_room (numbers_of bytes.now) numbers.old
        (numbers_call letter who bytes.now) }
    ensures words { numbers.new ≡ if_call result (numbers_of bytes.now) numbers.old }
{
    let count = count_numbers(bytes)?;
    if numbers.len() < count {
        return None;
    }
    call_of(letter, who, count, 0, 0)?;
    put_numbers(bytes, numbers);
    call_with(letter, who, &numbers[..count])
}

// A line of fewer than three bytes: B is the one that is a call.
pub(crate) fn parse_letter(line: &[u8]) -> Option<Call>
    requires { length line.now < 3 }
    ensures { result ≡ parsed_short line.now }
{
    if line.len() != 1 {
        return None;
    }
    if line[0] != b'B' {
        return None;
    }
    bare(Command::Manage(ManagerCall::Begin))
}

// Where the numbers begin: S names who scans in the byte before.
pub(crate) fn from_of(letter: u8) -> usize
    ensures { result ≡ from_of letter }
{
    if letter == b'S' {
        return 3;
    }
    2
}

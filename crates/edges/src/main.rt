// The cases at the edges (01 "At the edges", and the refusals), read from standard input: session lines, and lines of
// small letters that do what no session can. model/src/bin/edges.rs says what each letter does, and prints the same
// lines.
#![tactic(auto)]

ghost use Rattle.std.specs.Prelude.{◌≤◌, length};

use crate::poke::Store;
use reply::{ReplyWords, VALUES_MAX};
use rules::limits::ROWS_LENT;
use rules::{Answer, Command, Kept, ManagerCall, Reader};
use session_line::limits::{ANSWER_MAX, BITMAP_MAX, NUMBERS_MAX};
use session_text::print_line;
use std::io::{Read, Stdin, Stdout, Write};

mod poke;

// One row more, for the case that lends too many.
const ROWS_MORE: usize = ROWS_LENT + 1;

const BYTES: usize = 8;

// Bytes of an output or of a file (02 (v)).
const FILE_MAX: usize = 128;

const STALE: u8 = 165;

const ROW: u64 = 7;

// Bytes of input that are read.
const INPUT_MAX: usize = 65536;

// The first n bytes, to standard output. What cannot be written is missing there.
fn send(to: Stdout, bytes: &[u8], n: usize) {
    if bytes.len() < n {
        return;
    }
    let mut stdout = to;
    let _ = stdout.write_all(&bytes[..n]);
}

// Standard input, until the buffer is full or the input ends; where a read fails it has ended. Answers how many bytes.
fn read_full(from: Stdin, input: &mut [u8]) -> usize
    ensures { result ≤ length input.new }
{
    let mut stdin = from;
    let mut done = 0;
    // No index is counted: a read says how far it came.
    while done < input.len() {
        let count = stdin.read(&mut input[done..]).unwrap_or(0);
        if count == 0 {
            break;
        }
        done += count;
    }
    done
}

// The number of an answer, and its values; of a begin that is lent so many rows the number alone.
fn print_reply(letter: u8, reply: ReplyWords, out: &mut [u8]) -> usize {
    let count = if letter == b'g' {
        0
    } else {
        reply.count.min(VALUES_MAX)
    };
    print_line(letter, reply.number, &reply.values[..count], out)
}

// The number of an answer, its first values, and bytes.
fn print_bytes(letter: u8, reply: ReplyWords, count: usize, bytes: &[u8], out: &mut [u8]) -> usize {
    if VALUES_MAX < count || FILE_MAX < bytes.len() {
        return 0;
    }
    let mut values = [0u64; VALUES_MAX + FILE_MAX];
    values[..count].copy_from_slice(&reply.values[..count]);
    for (value, byte) in values[count..].iter_mut().zip(bytes) {
        *value = u64::from(*byte);
    }
    print_line(letter, reply.number, &values[..count + bytes.len()], out)
}

// What a small letter that repeats a call names: the call, how often it is made, how many rows it is lent, and how many
// its batch has.
#[derive(Clone, Copy)]
struct Calls {
    command: Command,
    times: u64,
    rows: usize,
    batch: usize,
}

fn calls_of(letter: u8, a: u64, b: u64, c: u64) -> Option<Calls> {
    let calls = Calls {
        command: Command::Manage(ManagerCall::Begin),
        times: 1,
        rows: ROWS_LENT,
        batch: 0,
    };
    match letter {
        b'n' => Some(Calls {
            command: Command::Create { start: a },
            ..calls
        }),
        b'g' => Some(Calls {
            rows: a as usize,
            ..calls
        }),
        b'f' => Some(Calls {
            command: Command::Append {
                txn: a,
                partition: b,
            },
            batch: c as usize,
            ..calls
        }),
        b'b' => Some(Calls { times: a, ..calls }),
        b'q' => Some(Calls {
            command: Command::Manage(ManagerCall::BeginRo { epoch: 0 }),
            times: a,
            ..calls
        }),
        b'd' => Some(Calls {
            command: Command::Clear {
                txn: a,
                partition: b,
            },
            times: c,
            ..calls
        }),
        _ => None,
    }
}

// What each line does. A method answers how many bytes of its answer are left to send.
impl Store {
    fn call(
        &mut self,
        rows: &mut [u64],
        batch: &[u64],
        bytes: &mut [u8],
        command: Command,
    ) -> Answer {
        let done = dispatch::turn(self.state, self.table, rows, batch, bytes, command);
        self.state = done.state;
        self.table = done.table;
        done.answer
    }

    // A call that is lent a stale bitmap of eight bytes, so many times, and the last answer.
    fn repeat(&mut self, rows: &mut [u64], calls: Calls, letter: u8, out: &mut [u8]) -> usize {
        if calls.times == 0 || rows.len() < calls.rows || NUMBERS_MAX < calls.batch {
            return 0;
        }
        let batch = [ROW; NUMBERS_MAX];
        let mut reply = ReplyWords {
            number: 0,
            values: [0; VALUES_MAX],
            count: 1,
        };
        for _ in 0..calls.times {
            let mut bitmap = [STALE; BYTES];
            let answer = self.call(
                &mut rows[..calls.rows],
                &batch[..calls.batch],
                &mut bitmap,
                calls.command,
            );
            reply = ReplyWords::from(answer);
        }
        print_reply(letter, reply, out)
    }

    // A scan that is lent the first n of eight stale bytes: its counts, and all eight.
    fn scan(
        &mut self,
        rows: &mut [u64],
        reader: Reader,
        lot: u64,
        n: usize,
        out: &mut [u8],
    ) -> usize {
        if BYTES < n {
            return 0;
        }
        let mut bytes = [STALE; BYTES];
        let command = Command::Scan {
            reader,
            partition: lot,
        };
        let answer = self.call(rows, &[], &mut bytes[..n], command);
        print_bytes(b't', ReplyWords::from(answer), 2, &bytes, out)
    }

    // A purge: whether it rewrote, to standard output, and on a line of its own the rows in force, after how many.
    fn purge(&mut self, to: Stdout, rows: &mut [u64], lot: u64, out: &mut [u8]) -> usize {
        let before = self.state;
        let mut bitmap = [STALE; BYTES];
        let answer = self.call(rows, &[], &mut bitmap, Command::Purge { partition: lot });
        let size = print_bytes(b'p', ReplyWords::from(answer), 1, &[], out);
        send(to, out, size);
        let live = store::part::live_rows(before, rows, lot, answer);
        print_line(b'r', live.len() as u64, live, out)
    }

    // A save at an epoch, lent so many stale bytes: how many it has, and all that it was lent.
    fn save(&mut self, rows: &mut [u64], epoch: u64, size: u64, out: &mut [u8]) -> usize {
        if size > FILE_MAX as u64 {
            return 0;
        }
        let n = size as usize;
        let mut file = [STALE; FILE_MAX];
        let answer = self.call(rows, &[], &mut file[..n], Command::Save { epoch });
        print_bytes(b'k', ReplyWords::from(answer), 1, &file[..n], out)
    }

    // Recovery of the file that a line has: a count, and so many bytes.
    fn recover(&mut self, rows: &mut [u64], numbers: &[u64], out: &mut [u8]) -> usize {
        if numbers.len() <= FILE_MAX || numbers[0] > FILE_MAX as u64 {
            return 0;
        }
        let n = numbers[0] as usize;
        let mut file = [0u8; FILE_MAX];
        for (byte, number) in file.iter_mut().zip(&numbers[1..]) {
            *byte = (*number % 256) as u8;
        }
        let answer = self.call(rows, &[], &mut file[..n], Command::Recover);
        print_reply(b'v', ReplyWords::from(answer), out)
    }

    // A line of a session; a scan is lent a bit for every row.
    fn line(
        &mut self,
        line: &[u8],
        rows: &mut [u64],
        numbers: &mut [u64],
        out: &mut [u8],
    ) -> usize {
        let parsed = session_text::parse(line, numbers);
        let mut bitmap = [0u8; BITMAP_MAX];
        let command = session_line::turn::command_of(parsed);
        let batch = session_line::turn::batch_of(numbers, parsed);
        let answer = self.call(rows, batch, &mut bitmap, command);
        let kept = Kept {
            state: self.state,
            answer,
        };
        session_line::turn::say(rows, numbers, out, bitmap, parsed, kept)
    }

    // A line of a small letter, by its numbers; a reader is a load (0) or a page.
    fn edge(
        &mut self,
        to: Stdout,
        letter: u8,
        rows: &mut [u64],
        numbers: &[u64],
        out: &mut [u8],
    ) -> usize {
        if numbers.len() < 4 || rows.len() < ROWS_LENT {
            return 0;
        }
        let a = numbers[0];
        let b = numbers[1];
        let c = numbers[2];
        match letter {
            b'w' => {
                poke::row(rows, a, b);
                self.poke(a, b);
                0
            }
            b't' => {
                let reader = if a == 0 { Reader::Rw(b) } else { Reader::Ro(b) };
                let n = numbers[3] as usize;
                self.scan(&mut rows[..ROWS_LENT], reader, c, n, out)
            }
            b'p' => self.purge(to, &mut rows[..ROWS_LENT], a, out),
            b'k' => self.save(&mut rows[..ROWS_LENT], a, b, out),
            b'v' => self.recover(&mut rows[..ROWS_LENT], numbers, out),
            _ => match calls_of(letter, a, b, c) {
                Some(calls) => self.repeat(rows, calls, letter, out),
                None => 0,
            },
        }
    }

    // One line of the cases. Of a line of a small letter the letter was taken, and A put in its place.
    fn say(
        &mut self,
        to: Stdout,
        letter: u8,
        line: &[u8],
        rows: &mut [u64],
        numbers: &mut [u64],
        out: &mut [u8],
    ) -> usize {
        if rows.len() < ROWS_LENT {
            return 0;
        }
        if letter < b'a' {
            return self.line(line, &mut rows[..ROWS_LENT], numbers, out);
        }
        if session_text::parse(line, numbers).is_none() {
            return 0;
        }
        self.edge(to, letter, rows, numbers, out)
    }

    // The line from `used` on; one that starts with `#` is printed as it is. Answers where the next begins.
    fn step(
        &mut self,
        to: Stdout,
        input: &mut [u8],
        used: usize,
        rows: &mut [u64],
        numbers: &mut [u64],
        out: &mut [u8],
    ) -> Option<usize> {
        let stop = session_text::line_end(input, used);
        if stop < used || input.len() <= stop {
            return None;
        }
        let letter = input[used];
        if letter == b'#' {
            send(to, &input[used..], stop + 1 - used);
            return Some(stop + 1);
        }
        // A line of a small letter is read as an append, for its numbers.
        if b'a' <= letter {
            input[used] = b'A';
        }
        let written = self.say(to, letter, &input[used..stop], rows, numbers, out);
        send(to, out, written);
        Some(stop + 1)
    }
}

// Line after line: the input has fewer lines than bytes.
fn run(to: Stdout, input: &mut [u8], rows: &mut [u64], numbers: &mut [u64], out: &mut [u8]) {
    let mut store = Store::blank();
    let mut used = 0;
    for _ in 0..input.len() {
        let Some(next) = store.step(to, input, used, rows, numbers, out) else {
            return;
        };
        used = next;
    }
}

fn main(rt: HostRuntime) {
    let mut input = [0u8; INPUT_MAX];
    let n = read_full(rt.stdin(), &mut input);
    let mut rows = [0u64; ROWS_MORE];
    let mut numbers = [0u64; NUMBERS_MAX];
    let mut out = [0u8; ANSWER_MAX];
    run(
        rt.stdout(),
        &mut input[..n],
        &mut rows,
        &mut numbers,
        &mut out,
    );
}

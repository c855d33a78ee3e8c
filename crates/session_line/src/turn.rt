// One turn of the loop over lines: a line found, read, answered. 01 "A session". What the loop does beside its call of
// dispatch stands here.
ghost use Rattle.std.specs.Prelude.{◌≡◌, ◌++◌, ◌+◌, ◌-◌, min, leb, length, take, drop};
ghost use Rattle.lists.specs.Lists.{part, over};
ghost use Rattle.session_text.specs.Lines.{size_in, written_in};
ghost use Rattle.session_line.specs.Rooms.{answer_max};
ghost use Rattle.session_line.specs.Turn.{room_for, cursor_at, cursor_after, line_at, parsed_in, words_in};
ghost use Rattle.session_line.specs.Turn.{command_in, rows_in, said_in, shown_of};

use crate::limits::{ANSWER_MAX, BITMAP_MAX, NUMBERS_MAX};
use crate::shown::print_answer;
use rules::limits::PARTITIONS_MAX;
use rules::{Command, Kept};
use session_text::Call;

// Where the next line begins and ends, where its answer goes, and whether there is one to answer.
#[derive(Clone, Copy)]
pub struct Cursor {
    pub used: usize,
    pub end: usize,
    pub written: usize,
    pub more: bool,
}

// How many bytes there are for answers: none where the numbers of a line may not fit.
pub fn room_for(numbers: usize, out: usize) -> usize
    ensures { result ≡ room_for numbers out }
{
    if numbers < NUMBERS_MAX { 0 } else { out }
}

pub fn seek(input: &[u8], room: usize, used: usize, written: usize) -> Cursor
    ensures { result ≡ cursor_at input.now room used written }
{
    let end = session_text::line_end(input, used);
    let more = end != input.len() && ANSWER_MAX <= room.saturating_sub(written);
    Cursor {
        used,
        end,
        written,
        more,
    }
}

// The line at the cursor; its numbers stand then at the front of `numbers`.
pub fn read_line(input: &[u8], numbers: &mut [u64], at: Cursor) -> Option<Call>
    ensures answer { result ≡ parsed_in (line_at at input.now) numbers.old }
    ensures words { numbers.new ≡ words_in (line_at at input.now) numbers.old }
{
    let end = at.end.min(input.len());
    let from = at.used.min(end);
    session_text::parse(&input[from..end], numbers)
}

// A line that is no call is handed on as a purge of a partition that is not there: refused on every store.
pub fn command_of(parsed: Option<Call>) -> Command
    ensures { result ≡ command_in parsed }
{
    match parsed {
        Some(call) => call.command,
        None => Command::Purge {
            partition: PARTITIONS_MAX as u64,
        },
    }
}

fn rows_of(parsed: Option<Call>) -> usize
    ensures { result ≡ rows_in parsed }
{
    parsed.map_or(0, |call| call.rows)
}

// The rows of an append, where they were read.
pub fn batch_of(numbers: &[u64], parsed: Option<Call>) -> &[u64]
    ensures { result.now ≡ part 2 (rows_in parsed) numbers.now }
{
    let n = numbers.len();
    let from = n.min(2);
    let last = from + rows_of(parsed).min(n - from);
    &numbers[from..last]
}

// The line that answers, at the front of `out`.
pub fn say(
    rows: &[u64],
    numbers: &mut [u64],
    out: &mut [u8],
    bitmap: [u8; BITMAP_MAX],
    parsed: Option<Call>,
    kept: Kept,
) -> usize
    ensures size { result ≡ size_in (said_in parsed kept bitmap rows.now numbers.old)
        out.old }
    ensures bytes { out.new ≡ written_in (said_in parsed kept bitmap rows.now
        numbers.old) out.old }
    ensures words { numbers.new ≡ over 0 (shown_of parsed kept bitmap rows.now
        numbers.old) numbers.old }
{
    let Some(call) = parsed else {
        return session_text::print_question(out);
    };
    print_answer(
        call.command,
        kept.answer,
        kept.state.partitions,
        rows,
        &bitmap,
        numbers,
        out,
    )
}

// The answer to the line at the cursor, written there; the cursor moves behind both.
pub fn answer_line(
    input: &[u8],
    rows: &[u64],
    numbers: &mut [u64],
    out: &mut [u8],
    bitmap: [u8; BITMAP_MAX],
    parsed: Option<Call>,
    kept: Kept,
    at: Cursor,
) -> Cursor
    ensures cursor { result ≡ cursor_after (said_in parsed kept bitmap rows.now numbers.old)
        input.now out.old at }
    ensures bytes { let w = min at.written (length out.old) in
        out.new ≡ take w out.old ++ written_in (said_in parsed kept bitmap rows.now
        numbers.old) (drop w out.old) }
    ensures words { numbers.new ≡ over 0 (shown_of parsed kept bitmap rows.now
        numbers.old) numbers.old }
{
    let n = out.len();
    let written = at.written.min(n);
    let size = say(rows, numbers, &mut out[written..], bitmap, parsed, kept);
    let used = at.end.saturating_add(1).min(input.len());
    seek(input, n, used, written + size)
}

// A buffer of lines, one answered after the other. 01 "A session".
ghost use Rattle.std.specs.Prelude.{◌≡◌, length};
ghost use Rattle.lists.specs.Lists.{over};
ghost use Rattle.store.specs.Kept.{store_of};
ghost use Rattle.session_line.specs.Session.{after_lines, answers_to};
ghost use Rattle.replay.specs.Lines.{replayed, bytes_of, held_lines};

use dispatch::dispatch;
use lent::Table;
use rules::State;
use session_line::limits::BITMAP_MAX;
use session_line::turn::{answer_line, batch_of, command_of, read_line, room_for, seek};

// The store after the lines, how many bytes of input they were, and how many bytes answer them.
#[derive(Clone, Copy)]
pub struct Replayed {
    pub state: State,
    pub table: Table,
    pub used: usize,
    pub written: usize,
}

// The whole lines at the front of `input`, each answered while 16,384 bytes of `out` are left; the answers stand one
// after the other at its front. With less than 8,192 words lent as `numbers` no line is read.
pub fn replay(
    state: State,
    table: Table,
    input: &[u8],
    rows: &mut [u64],
    numbers: &mut [u64],
    out: &mut [u8],
) -> Replayed
    ensures store { let st = store_of state rows.old table.at in
        let ls = replayed numbers.old out.old input.now st in
        store_of result.state rows.new result.table.at ≡ after_lines ls st }
    ensures used { let st = store_of state rows.old table.at in
        let ls = replayed numbers.old out.old input.now st in
        result.used ≡ bytes_of ls }
    ensures size { let st = store_of state rows.old table.at in
        let ls = replayed numbers.old out.old input.now st in
        result.written ≡ length (answers_to ls st) }
    ensures bytes { let st = store_of state rows.old table.at in
        let ls = replayed numbers.old out.old input.now st in
        out.new ≡ over 0 (answers_to ls st) out.old }
    ensures words { let st = store_of state rows.old table.at in
        let ls = replayed numbers.old out.old input.now st in
        numbers.new ≡ held_lines ls st numbers.old }
{
    let room = room_for(numbers.len(), out.len());
    let mut at = seek(input, room, 0, 0);
    let mut books = state;
    let mut entries = table.at;
    // The cursor counts no index: each turn finds the next line anew.
    while at.more {
        let parsed = read_line(input, numbers, at);
        let mut bitmap = [0u8; BITMAP_MAX];
        let command = command_of(parsed);
        let batch = batch_of(numbers, parsed);
        let kept = dispatch(books, &mut entries, rows, batch, &mut bitmap, command);
        at = answer_line(input, rows, numbers, out, bitmap, parsed, kept, at);
        books = kept.state;
    }
    Replayed {
        state: books,
        table: Table { at: entries },
        used: at.used,
        written: at.written,
    }
}

// A session's turn, on slices: a chunk of input after the bytes held, and the answers to the lines that are whole.
// 01 "A session".
ghost use Rattle.std.specs.Prelude.{◌≡◌, true, ◌&&◌, ◌+◌, ◌≤◌, ◌<◌, length, take, drop};
ghost use Rattle.store.specs.Kept.{store_of};
ghost use Rattle.replay.specs.Start.{started};
ghost use Rattle.serve.specs.Turn.{Roomy, Standing, Opened, Answered, Turned, taken_in};

use lent::Table;
use rules::State;

// A session between two turns: the store; which bytes of the input buffer are held, from `from` to `end`; how many
// bytes of the other buffer are answers to write out; whether more input is wanted, since no line that is held is
// whole; whether the input has ended.
#[derive(Clone, Copy)]
pub struct Session {
    pub state: State,
    pub table: Table,
    pub from: usize,
    pub end: usize,
    pub written: usize,
    pub reads: bool,
    pub ended: bool,
}

// Nothing is held, and the store is made new at 1.
pub(crate) fn opening(rows: &mut [u64]) -> Session
    ensures opened { Opened result }
    ensures at_after { store_of result.state rows.new result.table.at ≡ (started rows.old).store }
{
    let first = replay::start(rows);
    Session {
        state: first.state,
        table: first.table,
        from: 0,
        end: 0,
        written: 0,
        reads: true,
        ended: false,
    }
}

// The input has ended, and no line is left.
pub(crate) fn is_done(s: Session) -> bool
    ensures { result ≡ s.reads && s.ended }
{
    s.reads && s.ended
}

// The bytes held and those that a read brought behind them. The last line may have no end: where the input is over and
// some bytes are held, a line end is put behind them. Answers where they end.
fn take_in(input: &mut [u8], reads: bool, over: bool, end: usize, count: usize) -> usize
    requires { (end + count ≤ length input.old) × (reads ≡ true → end < length input.old) }
    ensures input_after { take result input.new ≡ taken_in reads over count end input.old }
    ensures value { result ≡ length (taken_in reads over count end input.old) }
{
    if !reads {
        return end;
    }
    if !over {
        return end + count;
    }
    if end == 0 {
        return 0;
    }
    input[end] = b'\n';
    end + 1
}

// The whole lines from `from` to `end` answered, while there is room for the answers. Where none is left, the rest is
// moved to the front, and more is wanted.
fn answer(
    s: Session,
    end: usize,
    ended: bool,
    input: &mut [u8],
    rows: &mut [u64],
    numbers: &mut [u64],
    out: &mut [u8],
) -> Session
    requires roomy { Roomy numbers.old input.old out.old }
    requires from_le_end { (s.from ≤ end) × (end ≤ length input.old) }
    ensures answered { Answered (drop s.from (take end input.old))
        (store_of s.state rows.old s.table.at) result input.new out.new
        (store_of result.state rows.new result.table.at) }
    ensures ended_value { result.ended ≡ ended }
{
    let r = replay::replay(s.state, s.table, &input[s.from..end], rows, numbers, out);
    let state = r.state;
    if r.used == 0 {
        let held = session_line::rest::keep_rest(input, s.from, end);
        return Session {
            state,
            table: r.table,
            from: 0,
            end: held,
            written: r.written,
            reads: true,
            ended,
        };
    }
    Session {
        state,
        table: r.table,
        from: s.from + r.used,
        end,
        written: r.written,
        reads: false,
        ended,
    }
}

// A turn: the so many bytes that a read brought, where more was wanted, stand behind the bytes held.
pub(crate) fn turn(
    s: Session,
    count: usize,
    input: &mut [u8],
    rows: &mut [u64],
    numbers: &mut [u64],
    out: &mut [u8],
) -> Session
    requires roomy { Roomy numbers.old input.old out.old }
    requires standing { Standing s input.old }
    requires count_in_bounds { s.end + count ≤ length input.old }
    ensures { Turned s count input.old (store_of s.state rows.old s.table.at)
        result input.new out.new (store_of result.state rows.new result.table.at) }
{
    let over = count == 0;
    let end = take_in(input, s.reads, over, s.end, count);
    let ended = if s.reads { over } else { s.ended };
    answer(s, end, ended, input, rows, numbers, out)
}

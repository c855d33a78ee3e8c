// The rows that a scan shows: the words of a partition at the ones of its bitmap. 01 "A session", S.
ghost use Rattle.std.specs.Prelude.{◌≡◌, length};
ghost use Rattle.lists.specs.Lists.{over};
ghost use Rattle.rules.specs.Claim.{bit_at, words_at_ones};
ghost use Rattle.session_text.specs.Lines.{size_in, written_in};
ghost use Rattle.session_text.specs.Print.{printed};
ghost use Rattle.session_line.specs.Shown.{shown_words, fitting, shown_in};

use area::partition_at;
use reply::ReplyWords;
use rules::limits::ROWS_MAX;
use rules::{Answer, Command, Partitions};
use session_text::{letter_of, print_line};

// Bit i of a bitmap, row 0 lowest in byte 0; past its end there are no ones.
fn is_one(bitmap: &[u8], i: usize) -> bool
    ensures { result ≡ bit_at bitmap.now i }
{
    let at = i / 8;
    if bitmap.len() <= at {
        return false;
    }
    (bitmap[at] >> (i % 8)) % 2 == 1
}

// The words at the ones, lowest first, as many as have room.
fn pick(words: &[u64], bitmap: &[u8], out: &mut [u64]) -> usize
    ensures answer { let ws = fitting (words_at_ones bitmap.now 0 words.now)
        out.old in
        result ≡ length ws }
    ensures words { let ws = fitting (words_at_ones bitmap.now 0 words.now)
        out.old in
        out.new ≡ over 0 ws out.old }
{
    let mut k = 0;
    for (i, word) in words.iter().enumerate() {
        if !is_one(bitmap, i) {
            continue;
        }
        if out.len() <= k {
            return k;
        }
        out[k] = *word;
        k += 1;
    }
    k
}

// The words at the ones of the first n rows of an area, at the front of a buffer, as many as have room; answers how
// many.
pub fn shown_rows(rows: &[u64], area: usize, n: usize, bitmap: &[u8], out: &mut [u64]) -> usize
    ensures answer { let ws = fitting (shown_words bitmap.now area n rows.now)
        out.old in
        result ≡ length ws }
    ensures words { let ws = fitting (shown_words bitmap.now area n rows.now)
        out.old in
        out.new ≡ over 0 ws out.old }
{
    if rows.len() / ROWS_MAX < area {
        return 0;
    }
    let from = ROWS_MAX * area;
    let end = from + n.min(ROWS_MAX).min(rows.len() - from);
    pick(&rows[from..end], bitmap, out)
}

// The line that answers a command, at the front of `out`. The rows that a scan shows stand then at the front of
// `numbers`.
pub fn print_answer(
    command: Command,
    answer: Answer,
    partitions: Partitions,
    rows: &[u64],
    bitmap: &[u8],
    numbers: &mut [u64],
    out: &mut [u8],
) -> usize
    ensures size { let ws = fitting (shown_in command answer partitions bitmap.now rows.now)
        numbers.old in
        result ≡ size_in (printed command answer ws) out.old }
    ensures bytes { let ws = fitting (shown_in command answer partitions bitmap.now
        rows.now)
        numbers.old in
        out.new ≡ written_in (printed command answer ws) out.old }
    ensures words { let ws = fitting (shown_in command answer partitions bitmap.now
        rows.now)
        numbers.old in
        numbers.new ≡ over 0 ws numbers.old }
{
    let letter = letter_of(command);
    let reply = ReplyWords::from(answer);
    let values = reply.values;
    match command {
        Command::Scan {
            reader: _,
            partition,
        } => {
            let q = partition_at(partitions, partition);
            let n = shown_rows(rows, q.area, values[0] as usize, bitmap, numbers);
            print_line(letter, reply.number, &numbers[..n], out)
        }
        _ => {
            let count = reply.count;
            print_line(letter, reply.number, &values[..count], out)
        }
    }
}

// Replies in words, for callers in C and Rust: 01's number of an answer and its values, with the books after the call.
ghost use Rattle.std.specs.Prelude.{◌≡◌};
ghost use Rattle.exports.specs.Words.{place_in, replied_at, replied_of, purged_of, seen_of};
ghost use Rattle.reply.specs.Reply.{words_of};
ghost use Rattle.rules.specs.Answers.{reply_of};

use area::row_base;
use reply::ReplyWords;
use rules::limits::PARTITIONS_MAX;
use rules::{Answer, Kept, Partitions, State};

// The books after a call, 01's number of its answer and its values, and the part that a purge answers with: `count` of
// the lent rows, from row `from` on; 0 and 0 for another call. The books stand first, so that a compiler can build them
// where the caller wants them.
#[repr(C)]
#[derive(Clone, Copy)]
pub struct Replied {
    pub state: State,
    pub number: u64,
    pub value: u64,
    pub second: u64,
    pub from: usize,
    pub count: usize,
}

// What a scan or a save (02 (v)) replies: it leaves the books as they were.
#[repr(C)]
#[derive(Clone, Copy)]
pub struct Seen {
    pub number: u64,
    pub value: u64,
    pub second: u64,
}

// Some of the lent rows.
#[derive(Clone, Copy)]
pub struct Place {
    pub from: usize,
    pub count: usize,
}

const NOWHERE: Place = Place { from: 0, count: 0 };

// Where the rows of partition p (01: lot) lie after a call of this number; nowhere if it was refused, or above 7.
fn place_in(number: u64, partitions: Partitions, p: u64) -> Place
    ensures { result ≡ place_in number partitions p }
{
    if number != 0 {
        return NOWHERE;
    }
    if PARTITIONS_MAX as u64 <= p {
        return NOWHERE;
    }
    let q = partitions.at[p as usize];
    Place {
        from: row_base(q.area),
        count: q.rows,
    }
}

// The reply to a call, by its answer in words, with this part.
#[inline(always)]
fn with_part(k: Kept, reply: ReplyWords, part: Place) -> Replied
    requires { reply ≡ words_of (reply_of k.answer) }
    ensures { result ≡ replied_at k part }
{
    Replied {
        state: k.state,
        number: reply.number,
        value: reply.values[0],
        second: reply.values[1],
        from: part.from,
        count: part.count,
    }
}

// The reply to a call that answers with no part.
#[inline(always)]
pub fn reply_to(k: Kept) -> Replied
    ensures { result ≡ replied_of k }
{
    with_part(k, ReplyWords::from(k.answer), NOWHERE)
}

// The reply to a purge of partition p, with the part in force: all rows of p, where it was accepted.
#[inline(always)]
pub fn reply_to_purge(k: Kept, p: u64) -> Replied
    ensures { result ≡ purged_of k p }
{
    let reply = ReplyWords::from(k.answer);
    let part = place_in(reply.number, k.state.partitions, p);
    with_part(k, reply, part)
}

// The reply to a scan or a save.
pub fn reply_to_read(answer: Answer) -> Seen
    ensures { result ≡ seen_of answer }
{
    let reply = ReplyWords::from(answer);
    Seen {
        number: reply.number,
        value: reply.values[0],
        second: reply.values[1],
    }
}

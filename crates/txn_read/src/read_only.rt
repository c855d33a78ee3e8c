// The records with a read-only transaction (01: page) more or less. 01 "The books", Open a page.
ghost use Rattle.std.specs.Prelude.{cond, [], ◌∷◌, ◌++◌, ◌≡◌, suc, ◌<◌, ◌≤◌, eqb, take};
ghost use Rattle.lists.specs.Lists.{pad};
ghost use Rattle.rules.specs.Limits.{last_ticket, readers_max};
ghost use Rattle.rules.specs.Manager.{no_ro, ro_txn};
ghost use Rattle.txn.specs.Records.{cut, readers_with};

use rules::{RoTxn, RoTxns};
use txn::cut;

// The epoch that e names: the value 0 means LCE.
pub(crate) fn snapshot(e: u64, lce: u64) -> u64
    ensures { result ≡ cond (eqb e 0) lce e }
{
    if e == 0 { lce } else { e }
}

// The next ticket is handed out, at epoch `at`.
pub(crate) fn begun_ro(readers: RoTxns, at: u64) -> RoTxns
    requires count_lt_readers_max { (readers.count < readers_max) × (readers.next ≤ last_ticket) }
    requires at_value { readers.at ≡ pad readers_max no_ro (take readers.count readers.at) }
    ensures { result ≡ readers_with (take readers.count readers.at ++ (ro_txn readers.next at ∷ []))
        (suc readers.next) }
{
    let mut ps = readers;
    let n = ps.count;
    let ticket = ps.next;
    ps.at[n] = RoTxn {
        ticket: ticket,
        epoch: at,
    };
    ps.count = n + 1;
    ps.next = ticket + 1;
    ps
}

// The records without those from place a up to place b.
pub(crate) fn cut_readers(ps: RoTxns, a: usize, b: usize) -> RoTxns
    requires a_le_b { (a ≤ b) × (b ≤ ps.count) × (ps.count ≤ readers_max) }
    requires at_value { ps.at ≡ pad readers_max no_ro (take ps.count ps.at) }
    ensures { result ≡ readers_with (cut a b (take ps.count ps.at)) ps.next }
{
    let n = ps.count;
    let mut at = ps.at;
    cut(&mut at[..n], a, b, RoTxn::default());
    RoTxns {
        at: at,
        count: n - (b - a),
        next: ps.next,
    }
}

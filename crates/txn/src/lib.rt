// What the calls on the transaction manager share. 01 "The books"; 004 III-A, III-B.
// Each call is answered by 01's refusals in 01's order, and a refusal hands the books back as they were. rest says
// whether the rest of the store is sound; the manager's own soundness is tested by parts_sound.
#![tactic(auto)]

ghost use Rattle.std.specs.Prelude.{◌&&◌, ◌≡◌, eqb, length, min};
ghost use Rattle.lists.specs.Lists.{pad};
ghost use Rattle.rules.specs.Limits.{deps_all};
ghost use Rattle.rules.specs.Manager.{manager_with};
ghost use Rattle.rules.specs.WellFormed.{manager_ok};
ghost use Rattle.txn.specs.Records.{cut};

use rules::{Clock, RoTxns, RwTxns};

// The places in use without those from a up to b: those behind move down, and none stands where they are gone.
pub fn cut<T: Copy>(used: &mut [T], a: usize, b: usize, none: T)
    ensures { used.new ≡ pad (length used.old) none (cut (min a b) b used.old) }
{
    let n = used.len();
    let end = b.min(n);
    let start = a.min(end);
    used.copy_within(end..n, start);
    // a loop: `fill` at a type parameter asks for facts on clones
    for x in &mut used[n - (end - start)..] {
        *x = none;
    }
}

// Soundness by the manager's parts, its table of deps lent: nothing large is handed over.
pub fn parts_sound(rest: bool, c: Clock, ts: RwTxns, deps: &[u64], ps: RoTxns) -> bool
    ensures { result ≡ (rest && (eqb (length deps.now) deps_all
        && manager_ok (manager_with c ts deps.now ps))) }
{
    rest && txn_sound::parts_ok(c, ts, deps, ps)
}

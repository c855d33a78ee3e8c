// The rows in force after a purge: a part of one of two lent areas. 01 "Lots", Purge.
#![tactic(auto)]

ghost use Rattle.std.specs.Prelude.{◌≡◌, take};
ghost use Rattle.rules.specs.Answers.{live_part};

use rules::Answer;

// The first n words, or all where there are fewer.
fn front(words: &[u64], n: usize) -> &[u64]
    ensures { result.now ≡ take n words.now }
{
    &words[..n.min(words.len())]
}

// Rows of the new area after a rewrite, of the old one where the purge was skipped, else none.
pub fn in_force<'a>(old: &'a [u64], new: &'a [u64], answer: Answer) -> &'a [u64]
    ensures { result.now ≡ live_part old.now new.now answer }
{
    match answer {
        Answer::Rewritten { rows } => front(new, rows),
        Answer::Skipped { rows } => front(old, rows),
        _ => front(old, 0),
    }
}

// What an answer says in 01's numbers. The one table: reply_of, rules/specs/Answers.antt.
#![tactic(auto)]

ghost use Rattle.std.specs.Prelude.{◌≡◌};
ghost use Rattle.rules.specs.Answers.{reply_of};
ghost use Rattle.reply.specs.Reply.{words_of, accepted};

use rules::Answer;

// The most values that an answer has.
pub const VALUES_MAX: usize = 2;

// A number and values[..count]; behind these stands 0.
#[derive(Clone, Copy)]
pub struct ReplyWords {
    pub number: u64,
    pub values: [u64; VALUES_MAX],
    pub count: usize,
}

// Accepted, with the first `count` of the values.
fn said(values: [u64; VALUES_MAX], count: usize) -> ReplyWords
    ensures { result ≡ accepted values count }
{
    ReplyWords {
        number: 0,
        values,
        count,
    }
}

impl From<Answer> for ReplyWords {
    ghost from_gives = { λ answer words. words ≡ words_of (reply_of answer) };

    fn from(answer: Answer) -> ReplyWords {
        match answer {
            Answer::Created => said([0, 0], 0),
            Answer::Begun { epoch } => said([epoch, 0], 1),
            Answer::Appended { rows } => said([rows as u64, 0], 1),
            Answer::Cleared { entries } => said([entries as u64, 0], 1),
            Answer::Closed { lce, oldest } => said([lce, oldest], 2),
            Answer::BegunRo { ticket } => said([ticket, 0], 1),
            Answer::EndedRo { left } => said([left as u64, 0], 1),
            Answer::Scanned { rows, ones } => said([rows as u64, ones as u64], 2),
            Answer::AdvancedLse { lse } => said([lse, 0], 1),
            Answer::Rewritten { rows: _ } => said([1, 0], 1),
            Answer::Skipped { rows: _ } => said([0, 0], 1),
            Answer::Saved { bytes } => said([bytes as u64, 0], 1),
            Answer::Recovered => said([0, 0], 0),
            Answer::Refused(r) => ReplyWords {
                number: u64::from(r),
                values: [0, 0],
                count: 0,
            },
        }
    }
}

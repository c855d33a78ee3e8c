// How long a bitmap is. 01 "Who sees a row", last paragraph.
#![tactic(auto)]

ghost use Rattle.std.specs.Prelude.{◌≡◌};
ghost use Rattle.rules.specs.Bitmap.{bytes_for};

// The bytes that so many rows need.
#[tactic(auto, unfolding(rules::specs::Bitmap::bytes_for))]
pub fn bytes_for(rows: usize) -> usize
    ensures { result ≡ bytes_for rows }
{
    rows.div_ceil(8)
}

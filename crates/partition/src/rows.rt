// Rows into a lent area. 01 "Lots", Append: a batch is added in order.
ghost use Rattle.std.specs.Prelude.{◌≡◌};
ghost use Rattle.partition.specs.Rows.{put_rows};

// The batch to rows[at..]; nothing is written where it does not fit.
#[tactic(auto, unfolding(crate::specs::Rows::put_rows))]
pub fn put_rows(rows: &mut [u64], at: usize, batch: &[u64])
    ensures { rows.new ≡ put_rows at batch.now rows.old }
{
    let n = rows.len();
    let k = batch.len();
    if n < k {
        return;
    }
    if n - k < at {
        return;
    }
    // a loop: with `copy_from_slice` the static libraries would need memmove
    for (j, x) in batch.iter().enumerate() {
        rows[at + j] = *x;
    }
}

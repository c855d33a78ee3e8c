// What every call on one partition asks first: 5 and 1, in 01's order ("Refusals that come from the state").
#![tactic(auto)]

ghost use Rattle.std.specs.Prelude.{◌≡◌};
ghost use Rattle.admit.specs.Admit.{admitted};

use rules::limits::PARTITIONS_MAX;
use rules::{Partition, Partitions, Refusal};

// Partition p of ps, or why the call is refused; sound says whether the store is.
pub fn admit(sound: bool, ps: Partitions, p: u64) -> Result<Partition, Refusal>
    ensures { result ≡ admitted sound ps p }
{
    if !sound {
        return Err(Refusal::Unsound);
    }
    let places = PARTITIONS_MAX as u64;
    if places <= p {
        return Err(Refusal::UnknownPartition);
    }
    Ok(ps.at[p as usize])
}

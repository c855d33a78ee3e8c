// The nine areas and who has which. 01 "Refusals that come from the state", the areas shared out once.
ghost use Rattle.std.specs.Prelude.{◌≡◌};
ghost use Rattle.rules.specs.WellFormed.{areas_ok};
ghost use Rattle.partition_sound.specs.Areas.{areas_of};

use crate::numbers::{all_below, all_differ};
use rules::Partitions;
use rules::limits::AREAS_MAX;

// The spare area, then the partitions' areas.
fn areas_of(ps: Partitions) -> [u64; AREAS_MAX]
    ensures { result ≡ areas_of ps }
{
    [
        ps.spare as u64,
        ps.at[0].area as u64,
        ps.at[1].area as u64,
        ps.at[2].area as u64,
        ps.at[3].area as u64,
        ps.at[4].area as u64,
        ps.at[5].area as u64,
        ps.at[6].area as u64,
        ps.at[7].area as u64,
    ]
}

// The nine areas are shared out once.
pub fn areas_ok(ps: Partitions) -> bool
    ensures { result ≡ areas_ok ps }
{
    let areas = areas_of(ps);
    all_below(&areas, AREAS_MAX as u64) && all_differ(&areas)
}

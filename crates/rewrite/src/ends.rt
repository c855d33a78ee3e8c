// Whether the ends of entries never fall and lie within the rows of an area. 01 *sound*.
ghost use Rattle.std.specs.Prelude.{◌≡◌};
ghost use Rattle.rewrite.specs.Kept.{ends_fit};

use rules::Entry;
use rules::limits::ROWS_MAX;

pub(crate) fn ends_fit(es: &[Entry]) -> bool
    ensures { result ≡ ends_fit 0 es.now }
{
    let mut from = 0;
    for e in es {
        if e.end < from {
            return false;
        }
        from = e.end;
    }
    from <= ROWS_MAX
}

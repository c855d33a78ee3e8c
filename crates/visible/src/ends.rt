// Whether the ends of entries are those of so many rows. 01 *sound*: ends never fall, and rise at a rows entry;
// the last is the row count.
ghost use Rattle.std.specs.Prelude.{◌≡◌, ◌&&◌, ◌||◌, ltb, leb, eqb};
ghost use Rattle.rules.specs.WellFormed.{ends_ok};

use rules::Entry;

// An entry whose rows begin at row `from`.
fn end_ok(from: usize, e: Entry) -> bool
    ensures { result ≡ (leb from e.end && (eqb e.mark 1 || ltb from e.end)) }
{
    from <= e.end && (e.mark == 1 || from < e.end)
}

pub(crate) fn ends_ok(es: &[Entry], rows: usize) -> bool
    ensures { result ≡ ends_ok rows 0 es.now }
{
    let mut end = 0;
    for e in es {
        if !end_ok(end, *e) {
            return false;
        }
        end = e.end;
    }
    end == rows
}

// The clock lent by &mut: one thin function. 01 "The books", Begin; 004 III-B "EC".
ghost use Rattle.std.specs.Prelude.{◌≡◌};
ghost use Rattle.epoch.specs.Ticks.{ticked};

use rules::Clock;

// The greatest 64-bit word. EC there has no next epoch, and stays.
const WORD_MAX: u64 = 18446744073709551615;

// Hands out EC and steps it by one.
pub fn advance(clock: &mut Clock) -> u64
    ensures { (result ≡ (ticked clock.old).epoch)
        × (clock.new ≡ (ticked clock.old).clock) }
{
    let e = clock.ec;
    if e < WORD_MAX {
        clock.ec = e + 1;
    }
    e
}

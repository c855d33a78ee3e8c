// Epochs: the range that making new takes, one beside another, and the clock: its step, and whether it is sound.
// 01 "The books"; 004 III-B "EC".
#![tactic(auto)]

pub mod tick;

ghost use Rattle.std.specs.Prelude.{◌≡◌, suc, eqb};
ghost use Rattle.rules.specs.WellFormed.{clock_ok};
ghost use Rattle.epoch.specs.Epochs.{start_of};
ghost use Rattle.epoch.specs.Ticks.{ticked};

use rules::Clock;
use rules::limits::LAST_EPOCH;

// The name of a read-write transaction (01: load).
#[derive(Clone, Copy)]
pub struct Epoch {
    pub number: u64,
}

impl Epoch {
    pub const FIRST: Epoch = Epoch { number: 1 };

    pub const LAST: Epoch = Epoch { number: LAST_EPOCH };

    // None where no epoch has the number s.
    pub fn new(s: u64) -> Option<Self>
        ensures { result ≡ start_of s }
    {
        if s < Self::FIRST.number || Self::LAST.number < s {
            return None;
        }
        Some(Self { number: s })
    }
}

// y is the epoch after x.
pub fn follows(x: u64, y: u64) -> bool
    ensures { result ≡ eqb (suc x) y }
{
    x < y && y - x == 1
}

// 01 "Refusals that come from the state", *sound*: the clock.
#[tactic(auto, unfolding(rules::specs::WellFormed::clock_ok))]
pub fn clock_ok(c: Clock) -> bool
    ensures { result ≡ clock_ok c }
{
    Epoch::FIRST.number <= c.ec && c.ec <= Epoch::LAST.number + 1 && c.lce < c.ec && c.lse <= c.lce
}

// What the clock hands out, and the clock after it.
#[derive(Clone, Copy)]
pub struct Ticked {
    pub epoch: u64,
    pub clock: Clock,
}

// Hands out EC and steps it by one: the clock by value, for callers that lend nothing.
pub fn advanced(clock: Clock) -> Ticked
    ensures { result ≡ ticked clock }
{
    let mut c = clock;
    let e = tick::advance(&mut c);
    Ticked { epoch: e, clock: c }
}

// Two kinds of time that must not be mixed: lock counts, 500 a second, and milliseconds. One conversion leads from the first to the second.
#![tactic(auto)]

ghost use Rattle.std.specs.Prelude.{◌≡◌};
ghost use Rattle.units.specs.Units.{lock_of, millis_of, count_in, millis_in, lock_millis, sum_of};

// LOCKTIME as a message carries it. The field is private, so that a count is never taken for a time by accident.
#[derive(Clone, Copy, Debug, PartialEq, Eq)]
pub struct LockCount(u32);

// Milliseconds, of the GNSS week or since lock: a lock count of 32 bits takes 33.
#[derive(Clone, Copy, Debug, PartialEq, Eq)]
pub struct Millis(u64);

impl LockCount {
    pub fn from_count(count: u32) -> Self
        ensures { result ≡ lock_of count }
    {
        Self(count)
    }

    pub fn count(self) -> u32
        ensures { result ≡ count_in self }
    {
        self.0
    }
}

impl Millis {
    pub fn from_number(number: u64) -> Self
        ensures { result ≡ millis_of number }
    {
        Self(number)
    }

    pub fn number(self) -> u64
        ensures { result ≡ millis_in self }
    {
        self.0
    }
}

// The one conversion: a lock count is two milliseconds.
pub fn since_lock(lock: LockCount) -> Millis
    ensures { result ≡ lock_millis lock }
{
    Millis(lock.0 as u64 * 2)
}

// Milliseconds and milliseconds, modulo 2^64.
pub fn plus(a: Millis, b: Millis) -> Millis
    ensures { result ≡ sum_of a b }
{
    Millis(a.0.wrapping_add(b.0))
}

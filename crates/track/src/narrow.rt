// The range by the steps of a board that multiplies 16 bits by 16 into 32 and divides numbers of 32 bits: besides there are sums of 64 bits, and
// nothing else. `tests/narrow.sh` holds everything here to that.
//
// In a count of PR light goes 149896229 / 15,000 micrometres, which is 9,993 and 1,229 / 15,000.
ghost use Rattle.std.specs.Prelude.{◌+◌, ◌*◌, ◌/◌, ◌^◌, ◌<◌, ◌≡◌};
ghost use Rattle.track.specs.Range.{range_of};

// The board's multiplication, and the only one.
fn product(left: u16, right: u16) -> u32
    ensures { result ≡ left * right }
{
    left as u32 * right as u32
}

// By four doublings.
fn sixteenfold(number: u64) -> u64
    requires { number < 2 ^ 60 }
    ensures { result ≡ 16 * number }
{
    let twofold: u64 = number + number;
    let fourfold: u64 = twofold + twofold;
    let eightfold: u64 = fourfold + fourfold;
    eightfold + eightfold
}

// The 9,993 of each count, which are 39 * 256 and 9: sixteen sums, as often as a product of the high half would have to be doubled.
fn whole_micrometres(counts: u32) -> u64
    ensures { result ≡ 9993 * counts }
{
    let once: u64 = counts as u64;
    let threefold: u64 = once + once + once;
    let ninefold: u64 = threefold + threefold + threefold;
    let eighteenfold: u64 = ninefold + ninefold;
    let thirty_ninefold: u64 = eighteenfold + eighteenfold + threefold;
    sixteenfold(sixteenfold(thirty_ninefold)) + ninefold
}

// The 1,229 / 15,000 of each count, all together, to the nearest. One of the high half is 65,536 counts, which have 5,369 and 8,744 / 15,000.
fn rounded_share(high: u16, low: u16) -> u64
    ensures { result ≡ (1229 * (65536 * high + low) + 7500) / 15000 }
{
    let parts: u64 = product(8744, high) as u64 + product(1229, low) as u64 + 7500;
    let rounded: u32 = parts as u32 / 15000;
    product(5369, high) as u64 + rounded as u64
}

// Of PR's halves, which are what the multiplication takes.
pub(crate) fn range(pseudorange: u32) -> u64
    ensures { result ≡ range_of pseudorange }
{
    let high: u32 = pseudorange / 65536;
    let low: u32 = pseudorange % 65536;
    whole_micrometres(pseudorange) + rounded_share(high as u16, low as u16)
}

// Bytes: the exclusive-or checksum, numbers most significant byte first, two's complement, copies.
// Every function here takes all inputs; what each answers is a definition of specs/.
#![tactic(auto)]

ghost use Rattle.std.specs.Prelude.{◌≡◌, ◌<◌, ◌≤◌, ◌%◌, ◌^◌, min, ltb, length, take};
ghost use Rattle.std.specs.Int.Signed.{mag};
ghost use Rattle.octets.specs.Begins.{common, fit, begins};
ghost use Rattle.octets.specs.Checksum.{summed_of};
ghost use Rattle.octets.specs.Numbers.{number, bytes_of};
ghost use Rattle.octets.specs.Parts.{over};
ghost use Rattle.octets.specs.Signed.{half, signed_of, raw_of};

// How a slice begins: with all of a string, with a part of it and nothing more yet, or with a byte that contradicts it.
#[derive(Clone, Copy, PartialEq, Eq, Debug)]
pub enum Fit {
    Whole,
    Part,
    Bad,
}

// A checksum, and the number of bytes that went through it.
#[derive(Clone, Copy, PartialEq, Eq, Debug)]
pub struct Summed {
    pub value: u8,
    pub count: usize,
}

// Of a block of 256 bytes. Its length is known and the loop has no way out, so that it is done in vectors with no test between them.
#[tactic(auto, using(crate::proofs::Walks::summing))]
fn block_checksum(block: &[u8]) -> Summed
    requires { length block.now ≡ 256 }
    ensures { result ≡ summed_of block.now }
{
    let mut sum: u8 = 0;
    let mut passed = 0;
    for i in 0..256 {
        sum ^= block[i];
        passed += 1;
    }
    Summed {
        value: sum,
        count: passed,
    }
}

// The exclusive or of every byte, each counted as it goes through: of whole blocks, then of the bytes that are left.
#[tactic(auto, using(crate::proofs::Walks::summing))]
pub fn checksum(s: &[u8]) -> Summed
    ensures { result ≡ summed_of s.now }
{
    let mut value: u8 = 0;
    let mut count = 0;
    // A block says how many bytes it counted, and what is left begins there: so this is no `for`.
    while 256 <= s.len() - count {
        let block = block_checksum(&s[count..count + 256]);
        value ^= block.value;
        count += block.count;
    }
    for byte in &s[count..] {
        value ^= *byte;
        count += 1;
    }
    Summed { value, count }
}

// ---- how a slice begins

// How s begins, held against t. The library tells whether it begins with all of t, and has no word for a part of t.
#[tactic(auto, using(crate::proofs::Walks::fitting))]
pub fn fits(t: &[u8], s: &[u8]) -> Fit
    ensures { result ≡ fit t.now s.now }
{
    for (i, letter) in t.iter().enumerate() {
        if s.len() <= i {
            return Fit::Part;
        }
        if s[i] != *letter {
            return Fit::Bad;
        }
    }
    Fit::Whole
}

// Whether s begins with all of t. The library's starts_with holds all of t against s, where most bytes are no message from the first on.
pub fn starts(t: &[u8], s: &[u8]) -> bool
    ensures { result ≡ begins t.now s.now }
{
    matches!(fits(t, s), Fit::Whole)
}

// How many of the first bytes of s are those of t: s begins with that much of t, and with no more. No method of the library counts them.
#[tactic(auto, using(crate::proofs::Walks::common_counts))]
pub fn common_to(t: &[u8], s: &[u8]) -> usize
    ensures { (result ≡ common t.now s.now) × (result ≤ length t.now) }
{
    for (i, letter) in t.iter().enumerate() {
        if s.len() <= i || s[i] != *letter {
            return i;
        }
    }
    t.len()
}

// ---- numbers, most significant byte first

// The number that bytes stand for, as far as 64 bits hold it: the whole of it for eight bytes or fewer. The library's from_be_bytes is for the widths of its
// own types.
#[tactic(auto, using(crate::proofs::Walks::numbering))]
pub fn number_of(s: &[u8]) -> u64
    ensures { result ≡ number s.now % 2 ^ 64 }
{
    let mut x: u64 = 0;
    for byte in s {
        x = x.wrapping_mul(256).wrapping_add(*byte as u64);
    }
    x
}

// The bytes of x, as many as s has: the lowest ones, where x needs more. A copy of to_be_bytes would need a bound on that.
#[tactic(auto, using(crate::proofs::Walks::writing))]
pub fn put_number(s: &mut [u8], x: u64)
    ensures { s.new ≡ bytes_of (length s.old) x }
{
    let mut y = x;
    for i in (0..s.len()).rev() {
        s[i] = (y % 256) as u8;
        y /= 256;
    }
}

// ---- two's complement

// z itself where it is not negative, and k for -(k + 1), of which `unsigned_abs` makes k + 1.
fn magnitude(z: i64) -> u64
    ensures { result ≡ mag z }
{
    if z < 0 { !z as u64 } else { z as u64 }
}

// Half the numbers of a field of `width` bits.
fn half_of(width: usize) -> u64
    ensures { (result ≡ half (min width 64)) × (0 < result) × (result ≤ 9223372036854775808) }
{
    1 << (width.clamp(1, 64) - 1)
}

// The number that the bits of a field of `width` bits stand for; a width above 64 counts as 64. The library casts its own types' widths alone.
pub fn signed_in(raw: u64, width: usize) -> i64
    ensures { result ≡ signed_of (half (min width 64)) raw }
{
    let half = half_of(width);
    if raw < half {
        return raw as i64;
    }
    let above = raw - half;
    // -(k + 1) has the bits of k turned.
    if above < half {
        return !((half - 1 - above) as i64);
    }
    -1
}

// The bits of a number in a field of `width` bits; a width above 64 counts as 64.
pub fn raw_in(z: i64, width: usize) -> u64
    ensures { result ≡ raw_of (half (min width 64)) z }
{
    let half = half_of(width);
    let m = magnitude(z);
    if z >= 0 {
        return m;
    }
    if m < half {
        return half - 1 - m + half;
    }
    let above = m - half;
    if above < half {
        return half - 1 - above;
    }
    0
}

// Whether a field of `width` bits holds the number.
#[tactic(auto, using(crate::proofs::Signed::half_cut))]
pub fn holds_signed(z: i64, width: usize) -> bool
    ensures { result ≡ ltb (mag z) (half width) }
{
    magnitude(z) < half_of(width)
}

// ---- copies

// As much of `from` as `to` has room for, at the front of `to`. The number is known before the loop, so that it is done in vectors; the library's
// copy_from_slice would have the archive for C call memmove, which its host may not have.
pub fn copy(from: &[u8], to: &mut [u8])
    ensures { to.new ≡ over (take (length to.old) from.now) to.old }
{
    let n = from.len().min(to.len());
    for i in 0..n {
        to[i] = from[i];
    }
}

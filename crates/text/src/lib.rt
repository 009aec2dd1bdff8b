// Numbers as text, put into a lent buffer one behind the other. A text that has no room is cut off at the end of the buffer, and past the end nothing is
// put: whoever joins texts tests for room once, or not at all.
#![tactic(auto)]

ghost use Rattle.std.specs.Prelude.{◌≡◌, ◌∷◌, [], ◌+◌, ◌-◌, ◌<◌, ◌≤◌, length, take};
ghost use Rattle.octets.specs.Numbers.{bytes_of};
ghost use Rattle.text.specs.Columns.{number_text, count_text};
ghost use Rattle.text.specs.Digits.{digit_of, digits, needed, decimal, pointed, metres, hertz};
ghost use Rattle.text.specs.Double.{exponent_of, thousandths, cycles};
ghost use Rattle.text.specs.Put.{appended};

// A lent buffer, and the place where the next byte goes. Contracts see both, so that whoever lent the buffer knows each byte of it afterwards.
#[derive(Drop)]
pub struct Text<'a> {
    buffer: &'a mut [u8],
    at: usize,
}

// ---- digits

fn digit(d: u64) -> u8
    requires { d < 16 }
    ensures { result ≡ digit_of d }
{
    if d < 10 { 48 + d as u8 } else { 55 + d as u8 }
}

// The last digits of n, as many as `out` has places, two at a time from the last ones down: the next two wait for one division. A range of
// pairs, counted down, makes a row a tenth slower than this loop.
fn spell(out: &mut [u8], n: u64, base: u64)
    requires { (0 < base) × (base ≤ 16) }
    ensures { out.new ≡ digits base (length out.old) n }
{
    let square = base * base;
    let mut rest = n;
    let mut i = out.len();
    while 1 < i {
        i -= 2;
        let pair = rest % square;
        out[i + 1] = digit(pair % base);
        out[i] = digit(pair / base);
        rest = rest / square;
    }
    if i == 1 {
        out[0] = digit(rest % base);
    }
}

// How many decimal digits n needs.
#[tactic(auto, using(crate::proofs::Split::needed_one, crate::proofs::Split::needed_exact))]
fn width_of(n: u64) -> usize
    ensures { (result ≡ needed 20 n) × (result ≤ 20) }
{
    if n == 0 {
        return 1;
    }
    n.ilog10() as usize + 1
}

// Eight digits packed into 64 bits, the first in the highest byte. Two numbers of four digits, 32 bits apart, are divided by 100 at once, then four of two
// digits, 16 bits apart, by 10: each has room for its product in a place of its own, and the mask leaves the quotient there. 2^32 - 10000, 2^16 - 100
// and 2^8 - 10 move a quotient to its place and take what it counts out of the rest.
fn packed_digits(n: u64) -> u64
    requires { n < 100000000 }
    ensures { bytes_of 8 result ≡ digits 10 8 n }
{
    let fours = n + n / 10000 * 0xFFFF_D8F0;
    let hundreds = fours * 5243 / 524288 & 0x7F_0000_007F;
    let pairs = fours + hundreds * 65436;
    let tens = pairs * 103 / 1024 & 0xF_000F_000F_000F;
    let ones = pairs + tens * 246;
    ones + 0x3030_3030_3030_3030
}

// The size of a double below 2^53 in thousandths, rounded once, halves up. 1000 times its digits fit 64 bits, and a shift brings them to their place.
fn round_thousandths(bits: u64, exponent: u64) -> u64
    requires { (exponent ≡ exponent_of bits) × (exponent < 1076) }
    ensures { result ≡ thousandths bits }
{
    if exponent < 1012 {
        return 0;
    }
    let scaled = (bits % 0x10_0000_0000_0000 + 0x10_0000_0000_0000) * 1000;
    let places = 1075 - exponent;
    let half = (1u64 << places) / 2;
    (scaled + half) >> places
}

// The first n bytes, or all where there are fewer: what was put, for whoever writes it out.
pub fn front(out: &[u8], n: usize) -> &[u8]
    ensures { (result.ref_ptr.0 ≡ out.entry.ref_ptr.0) × (result.ref_ptr.1 ≡ out.entry.ref_ptr.1) × (result.now ≡ take n out.now) }
{
    if n <= out.len() {
        return &out[..n];
    }
    out
}

impl<'a> Text<'a> {
    // ---- the buffer

    // Nothing is put yet.
    pub fn new(buffer: &'a mut [u8]) -> Text<'a>
        ensures { result ≡ record { buffer = buffer.entry; at = 0 } }
    {
        Text { buffer, at: 0 }
    }

    // So many bytes stand there already. Any place is one: past the end of the buffer nothing is put.
    pub fn behind(buffer: &'a mut [u8], at: usize) -> Text<'a>
        ensures { result ≡ record { buffer = buffer.entry; at = at } }
    {
        Text { buffer, at }
    }

    // Where the next byte goes.
    pub fn at(&self) -> usize
        ensures { result ≡ self.now.at }
    {
        self.at
    }

    // What was put.
    pub fn written(&self) -> &[u8]
        ensures { (result.ref_ptr.0 ≡ self.now.buffer.ref_ptr.0) × (result.ref_ptr.1 ≡ self.now.buffer.ref_ptr.1) × (result.now ≡ take self.now.at self.now.buffer.now) }
    {
        front(self.buffer, self.at)
    }

    // The next byte goes to the front again.
    pub fn clear(&mut self)
        ensures { self.new ≡ record { buffer = self.old.buffer; at = 0 } }
    {
        self.at = 0;
    }

    // How many bytes can be put.
    fn room(&self) -> usize
        ensures { result ≡ length self.now.buffer.now - self.now.at }
    {
        self.buffer.len().saturating_sub(self.at)
    }

    // ---- bytes

    // One byte.
    #[tactic(auto, using(crate::proofs::PutLaws::appended_one, crate::proofs::PutLaws::appended_past))]
    pub fn put(&mut self, byte: u8)
        ensures { self.new ≡ appended (byte ∷ []) self.old }
    {
        let at = self.at;
        if at < self.buffer.len() {
            self.buffer[at] = byte;
            self.at = at + 1;
        }
    }

    // The bytes of a text. Where all of it has room, its length is known before the copy: a word of the code is then a store or two.
    #[tactic(auto, using(crate::proofs::PutLaws::appended_past, crate::proofs::PutLaws::appended_whole, crate::proofs::PutLaws::appended_cut))]
    pub fn put_all(&mut self, text: &[u8])
        ensures { self.new ≡ appended text.now self.old }
    {
        let room = self.room();
        if room == 0 {
            return;
        }
        if text.len() <= room {
            let end = self.at + text.len();
            self.buffer[self.at..end].copy_from_slice(text);
            self.at = end;
            return;
        }
        let end = self.at + room;
        self.buffer[self.at..end].copy_from_slice(&text[..room]);
        self.at = end;
    }

    // ---- whole numbers

    // The last `width` digits of n. Of these the last ones go, where there is no room for all.
    #[tactic(auto, using(crate::proofs::PutLaws::appended_past))]
    fn put_digits(&mut self, n: u64, base: u64, width: usize)
        requires { (0 < base) × (base ≤ 16) }
        ensures { self.new ≡ appended (digits base width n) self.old }
    {
        let room = self.room();
        if room == 0 {
            return;
        }
        let mut rest = n;
        for _ in room..width {
            rest = rest / base;
        }
        let at = self.at;
        let end = at + width.min(room);
        spell(&mut self.buffer[at..end], rest, base);
        self.at = end;
    }

    // A whole number in decimal.
    pub fn put_decimal(&mut self, n: u64)
        ensures { self.new ≡ appended (decimal n) self.old }
    {
        self.put_digits(n, 10, width_of(n));
    }

    // The last `width` hexadecimal digits.
    pub fn put_hex(&mut self, n: u64, width: u8)
        ensures { self.new ≡ appended (digits 16 width n) self.old }
    {
        self.put_digits(n, 16, width as usize);
    }

    // ---- decimal digits with room for all of them

    // One byte.
    #[tactic(auto, using(crate::proofs::PutLaws::appended_one))]
    fn set(&mut self, byte: u8)
        requires { self.old.at < length self.old.buffer.now }
        ensures { (self.new.at ≡ self.old.at + 1) × (self.new ≡ appended (byte ∷ []) self.old) }
    {
        let at = self.at;
        self.buffer[at] = byte;
        self.at = at + 1;
    }

    // All eight are one store, so this is not four pairs.
    fn set_packed(&mut self, n: u64)
        requires { (self.old.at + 8 ≤ length self.old.buffer.now) × (n < 100000000) }
        ensures { (self.new.at ≡ self.old.at + 8) × (self.new ≡ appended (digits 10 8 n) self.old) }
    {
        let at = self.at;
        octets::put_number(&mut self.buffer[at..at + 8], packed_digits(n));
        self.at = at + 8;
    }

    #[tactic(auto, using(crate::proofs::Split::pair_set))]
    fn set_pair(&mut self, n: u32)
        requires { (self.old.at + 2 ≤ length self.old.buffer.now) × (n < 100) }
        ensures { (self.new.at ≡ self.old.at + 2) × (self.new ≡ appended (digits 10 2 n) self.old) }
    {
        let at = self.at;
        self.buffer[at] = 48 + (n / 10) as u8;
        self.buffer[at + 1] = 48 + (n % 10) as u8;
        self.at = at + 2;
    }

    // A number with as many digits as it needs: one or two. Of those below each has the one before it as its first step, and room for its own digits: a loop
    // over pairs would divide where these know the divisor.
    #[tactic(auto, using(crate::proofs::Split::decimal_digit, crate::proofs::Split::decimal_exact))]
    fn spell_pair(&mut self, n: u32)
        requires { (self.old.at + 2 ≤ length self.old.buffer.now) × (n < 100) }
        ensures { (self.new.at ≤ self.old.at + 2) × (self.new ≡ appended (decimal n) self.old) }
    {
        if n < 10 {
            self.set(48 + n as u8);
            return;
        }
        self.set_pair(n);
    }

    // Up to four.
    #[tactic(auto, using(crate::proofs::PutLaws::appended_twice, crate::proofs::PutLaws::length_appended, crate::proofs::Split::decimal_split, crate::proofs::Split::decimal_pairs, crate::proofs::Split::decimal_exact))]
    fn spell_short(&mut self, n: u32)
        requires { (self.old.at + 4 ≤ length self.old.buffer.now) × (n < 10000) }
        ensures { (self.new.at ≤ self.old.at + 4) × (self.new ≡ appended (decimal n) self.old) }
    {
        if n < 100 {
            self.spell_pair(n);
            return;
        }
        self.spell_pair(n / 100);
        self.set_pair(n % 100);
    }

    // Up to seven.
    #[tactic(auto, using(crate::proofs::PutLaws::appended_twice, crate::proofs::PutLaws::length_appended, crate::proofs::Split::decimal_split, crate::proofs::Split::decimal_pairs, crate::proofs::Split::decimal_exact))]
    fn spell_middle(&mut self, n: u32)
        requires { (self.old.at + 8 ≤ length self.old.buffer.now) × (n < 10000000) }
        ensures { (self.new.at ≤ self.old.at + 8) × (self.new ≡ appended (decimal n) self.old) }
    {
        if n < 10000 {
            self.spell_short(n);
            return;
        }
        self.spell_short(n / 10000);
        self.set_pair(n / 100 % 100);
        self.set_pair(n % 100);
    }

    // Up to ten, as 32 bits need: of more than seven the last eight at once.
    #[tactic(auto, using(crate::proofs::PutLaws::appended_twice, crate::proofs::PutLaws::length_appended, crate::proofs::Split::decimal_split, crate::proofs::Split::decimal_pairs, crate::proofs::Split::decimal_exact))]
    fn spell_long(&mut self, n: u32)
        requires { self.old.at + 10 ≤ length self.old.buffer.now }
        ensures { (self.new.at ≤ self.old.at + 10) × (self.new ≡ appended (decimal n) self.old) }
    {
        if n < 10000000 {
            self.spell_middle(n);
            return;
        }
        if n < 100000000 {
            self.set_packed(n as u64);
            return;
        }
        self.spell_pair(n / 100000000);
        self.set_packed(n as u64 % 100000000);
    }

    // ---- columns

    // A number and the byte behind it, of any size and whether there is room for both or not.
    #[tactic(auto, using(crate::proofs::PutLaws::appended_twice))]
    fn put_any(&mut self, n: u64, behind: u8)
        ensures { self.new ≡ appended (number_text n behind) self.old }
    {
        self.put_decimal(n);
        self.put(behind);
    }

    // A number and the byte behind it. One function for all widths makes a line of the listing a sixth slower: so the two below stand beside this one.
    pub fn put_number(&mut self, n: u64, behind: u8)
        ensures { self.new ≡ appended (number_text n behind) self.old }
    {
        if n < 4294967296 {
            self.put_long(n as u32, behind);
            return;
        }
        self.put_any(n, behind);
    }

    // The same of 32 bits, as a time has: with room for the widest no digit is tested for room.
    #[tactic(auto, using(crate::proofs::PutLaws::appended_twice, crate::proofs::PutLaws::length_appended))]
    pub fn put_long(&mut self, n: u32, behind: u8)
        ensures { self.new ≡ appended (number_text n behind) self.old }
    {
        if 11 <= self.room() {
            self.spell_long(n);
            self.set(behind);
            return;
        }
        self.put_any(n as u64, behind);
    }

    // The same of 16 bits, as a length or a count has: mostly a few digits, which are set where the caller stands.
    #[tactic(auto, using(crate::proofs::PutLaws::appended_twice, crate::proofs::PutLaws::length_appended))]
    pub fn put_short(&mut self, n: u16, behind: u8)
        ensures { self.new ≡ appended (number_text n behind) self.old }
    {
        if 5 <= self.room() {
            if n < 10000 {
                self.spell_short(n as u32);
                self.set(behind);
                return;
            }
        }
        self.put_number(n as u64, behind);
    }

    // A word, a number and the byte behind it.
    #[tactic(auto, using(crate::proofs::PutLaws::appended_twice))]
    pub fn put_count(&mut self, word: &[u8], n: u64, behind: u8)
        ensures { self.new ≡ appended (count_text word.now n behind) self.old }
    {
        self.put_all(word);
        self.put_number(n, behind);
    }

    // ---- decimals

    // A sign, then a whole number and, behind the point, so many digits of another one. The callers divide, each by its own constant, which the machine does
    // by multiplying. As one struct these four go through memory, and a row takes a twentieth longer.
    #[tactic(auto, using(crate::proofs::PutLaws::appended_twice, crate::proofs::PutLaws::appended_none))]
    fn put_pointed(&mut self, negative: bool, whole: u64, places: usize, part: u64)
        ensures { self.new ≡ appended (pointed negative whole places part) self.old }
    {
        if negative {
            self.put(b'-');
        }
        self.put_decimal(whole);
        self.put(b'.');
        self.put_digits(part, 10, places);
    }

    // Whole micrometres as metres, with six decimals.
    pub fn put_metres(&mut self, micrometres: u64)
        ensures { self.new ≡ appended (metres micrometres) self.old }
    {
        self.put_pointed(false, micrometres / 1000000, 6, micrometres % 1000000);
    }

    // A rate in units of 1/10000 Hz as hertz, with four decimals.
    pub fn put_hertz(&mut self, rate: i32)
        ensures { self.new ≡ appended (hertz rate) self.old }
    {
        let negative = rate < 0;
        let size = if negative {
            (-1 - rate) as u32 as u64 + 1
        } else {
            rate as u32 as u64
        };
        self.put_pointed(negative, size / 10000, 4, size % 10000);
    }

    // A double of so many cycles, by its bits, with three decimals: or a word, where it is not finite, or so wide that it does not tell whole cycles.
    pub fn put_cycles(&mut self, bits: u64)
        ensures { self.new ≡ appended (cycles bits) self.old }
    {
        let exponent = bits / 0x10_0000_0000_0000 % 0x800;
        if exponent == 0x7FF {
            self.put_all(b"nonfinite");
            return;
        }
        if 1075 < exponent {
            self.put_all(b"wide");
            return;
        }
        let size = round_thousandths(bits, exponent);
        self.put_pointed(bits >= 0x8000_0000_0000_0000, size / 1000, 3, size % 1000);
    }
}

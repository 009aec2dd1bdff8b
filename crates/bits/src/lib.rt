// Fields of bits in bytes, least significant byte and bit first: any place, any width up to 64, signed ones in two's complement.
// Every function here takes all inputs; a width above 64 counts as 64. What lies outside the bytes reads 0, and what is written there is dropped.
#![tactic(auto)]

ghost use Rattle.std.specs.Prelude.{◌≡◌, ◌+◌, ◌≤◌, ◌^◌, ltb};
ghost use Rattle.std.specs.Int.Signed.{mag};
ghost use Rattle.octets.specs.Signed.{half, signed_of, raw_of};
ghost use Rattle.bits.specs.Fields.{cut, paste, field_of, with_field};
ghost use Rattle.bits.specs.Widths.{width_of};

// The bits of a field that lie in one byte.
#[derive(Clone, Copy)]
struct Piece {
    low: usize,
    count: usize,
    ghost inside: { low + count ≤ 8 },
}

impl Piece {
    fn read(self, byte: u8) -> u64
        ensures { result ≡ cut self.low self.count byte }
    {
        (byte as u64 >> self.low) % (1 << self.count)
    }

    // The byte with the lowest bits of a value in their place.
    #[tactic(auto, using(crate::proofs::Steps::piece_written, crate::proofs::Steps::piece_fits))]
    fn write(self, byte: u8, value: u64) -> u8
        ensures { result ≡ paste self.low self.count value byte }
    {
        let above = byte as u64 >> self.low >> self.count << self.count;
        let below = byte as u64 % (1 << self.low);
        (((above + value % (1 << self.count)) << self.low) + below) as u8
    }
}

// `width` bits from bit `at` on.
#[derive(Clone, Copy, Debug, PartialEq, Eq)]
pub struct Field {
    pub at: usize,
    pub width: usize,
}

impl Field {
    // What stands in the field, byte by byte: a `while`, since the first and the last step can go less far than the others.
    pub fn read(self, bytes: &[u8]) -> u64
        ensures { result ≡ field_of self.at (width_of self) bytes.now }
    {
        let width = self.width.min(64);
        let mut value: u64 = 0;
        let mut done = 0;
        while done < width {
            let place = self.at % 8 + done;
            let index = self.at / 8 + place / 8;
            if bytes.len() <= index {
                return value;
            }
            let low = place % 8;
            let count = (8 - low).min(width - done);
            value += Piece { low, count }.read(bytes[index]) << done;
            done += count;
        }
        value
    }

    // The lowest bits of a value into the field, by the same steps.
    #[tactic(auto, using(crate::proofs::Steps::write_all, crate::proofs::Steps::write_past))]
    pub fn write(self, bytes: &mut [u8], value: u64)
        ensures { bytes.new ≡ with_field self.at (width_of self) value bytes.old }
    {
        let width = self.width.min(64);
        let mut left = value;
        let mut done = 0;
        while done < width {
            let place = self.at % 8 + done;
            let index = self.at / 8 + place / 8;
            if bytes.len() <= index {
                return;
            }
            let low = place % 8;
            let count = (8 - low).min(width - done);
            bytes[index] = Piece { low, count }.write(bytes[index], left);
            left = left >> count;
            done += count;
        }
    }

    // The number that stands in the field, in two's complement.
    pub fn read_signed(self, bytes: &[u8]) -> i64
        ensures { result ≡ signed_of (half (width_of self)) (field_of self.at (width_of self) bytes.now) }
    {
        octets::signed_in(self.read(bytes), self.width)
    }

    // A number into the field, in two's complement.
    pub fn write_signed(self, bytes: &mut [u8], z: i64)
        ensures { bytes.new ≡ with_field self.at (width_of self) (raw_of (half (width_of self)) z) bytes.old }
    {
        self.write(bytes, octets::raw_in(z, self.width));
    }

    // Whether the field holds the value.
    #[tactic(auto, using(crate::proofs::Steps::all_held))]
    pub fn holds(self, value: u64) -> bool
        ensures { result ≡ ltb value (2 ^ self.width) }
    {
        64 <= self.width || value < 1 << self.width
    }

    // Whether the field holds the number, in two's complement.
    pub fn holds_signed(self, z: i64) -> bool
        ensures { result ≡ ltb (mag z) (half self.width) }
    {
        octets::holds_signed(z, self.width)
    }
}

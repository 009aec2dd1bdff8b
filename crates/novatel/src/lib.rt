// NovAtel's compressed range log, RANGECMP: its 24-byte range record, read and written, and the ADR less its rolls.
// Numbers are whole and in the log's own steps. Every public function takes all inputs; what each answers is a definition of specs/.
#![tactic(auto)]

ghost use Rattle.std.specs.Prelude.{◌≡◌, ◌+◌, ◌*◌, ◌<◌, ◌≤◌, pos, length};
ghost use Rattle.std.specs.Int.Signed.{mag};
ghost use Rattle.novatel.specs.Record.{record_of, record_bytes, fits};
ghost use Rattle.novatel.specs.Deviations.{range_deviation, adr_deviation};
ghost use Rattle.novatel.specs.Entries.{reading_of, writing_of, writing_bytes, correction_of};
ghost use Rattle.novatel.specs.Rolls.{nearest, rolls_of, corrected_of};

use bits::Field;
use refusal::Refusal;

// ---- where a record's fields stand

const STATUS: Field = Field { at: 0, width: 32 };

const DOPPLER: Field = Field { at: 32, width: 28 };

const RANGE: Field = Field { at: 60, width: 36 };

const ADR: Field = Field { at: 96, width: 32 };

const RANGE_DEVIATION: Field = Field { at: 128, width: 4 };

const ADR_DEVIATION: Field = Field { at: 132, width: 4 };

const PRN: Field = Field { at: 136, width: 8 };

const LOCK: Field = Field { at: 144, width: 21 };

const CN0: Field = Field { at: 165, width: 5 };

const RESERVED: Field = Field { at: 170, width: 22 };

// Of the status: both are 0 of GPS L1 C/A.
const SYSTEM: Field = Field { at: 16, width: 3 };

const SIGNAL: Field = Field { at: 21, width: 5 };

// The fields of a record: Doppler in 1/256 Hz, range in 1/128 m, ADR in 1/256 cycle, the deviations' codes, lock in 1/32 s, C/N0 in dB-Hz.
#[derive(Clone, Copy, Debug, PartialEq, Eq)]
pub struct Record {
    pub status: u64,
    pub doppler: i64,
    pub range: u64,
    pub adr: i64,
    pub range_deviation: u64,
    pub adr_deviation: u64,
    pub prn: u64,
    pub lock: u64,
    pub cn0: u64,
    pub reserved: u64,
}

// The rolls of an ADR, and the ADR less these.
#[derive(Clone, Copy, Debug, PartialEq, Eq)]
pub struct Corrected {
    pub rolls: i64,
    pub adr: i64,
}

// ---- the deviations' codes, of each the low 4 bits

// 003's table 1, in millimetres.
const RANGE_DEVIATIONS: [u64; 16] = [
    50, 75, 113, 169, 253, 380, 570, 854, 1281, 2375, 4750, 9500, 19000, 38000, 76000, 152000,
];

// The deviation of the range, in millimetres.
pub fn deviation_of_range(code: u64) -> u64
    ensures { result ≡ range_deviation code }
{
    RANGE_DEVIATIONS[(code % 16) as usize]
}

// The deviation of the ADR, in 1/512 cycle.
pub fn deviation_of_adr(code: u64) -> u64
    ensures { result ≡ adr_deviation code }
{
    code % 16 + 1
}

// ---- rolls

// A range in 1/256 cycle: the whole ones, and what is left in parts of L1's wavelength over 16.
#[derive(Clone, Copy)]
struct Cycles {
    whole: u64,
    rest: u64,
}

// The whole number nearest to an amount of 1/256 cycle over 2^23 cycles, halves up.
fn rounded(amount: u64) -> i64
    requires { amount < 1108101562368 }
    ensures { (result ≡ nearest (pos amount) 2147483648) × (mag result < 1024) }
{
    ((amount + 1073741824) / 2147483648) as i64
}

// A range and the ADR beside it, each in the bits that a record has for it.
#[derive(Clone, Copy)]
struct Measured {
    range: u64,
    adr: i64,
    ghost range_fits: { range < 68719476736 },
    ghost adr_fits: { mag adr < 2147483648 },
}

impl Measured {
    // 2 * 10^13 and the wavelength share the factor 16, and the range is divided in two halves of 18 bits, so that 64 bits hold every product.
    fn cycles(self) -> Cycles
        ensures { (1250000000000 * self.range ≡ 118933545499 * result.whole + result.rest) × (result.rest < 118933545499) × (result.whole < 1099511627776) }
    {
        let high = self.range / 262144 * 1250000000000;
        let low = high % 118933545499 * 262144 + self.range % 262144 * 1250000000000;
        Cycles {
            whole: high / 118933545499 * 262144 + low / 118933545499,
            rest: low % 118933545499,
        }
    }

    // The rest decides only where the sum is negative: it then lies between two whole numbers, and the one nearer to zero is rounded.
    #[tactic(auto, using(crate::proofs::RollSteps::behind_met))]
    fn rolls(self) -> i64
        ensures { (result ≡ rolls_of self.range self.adr) × (mag result < 1024) }
    {
        let Cycles { whole, rest } = self.cycles();
        let sum = whole as i64 + self.adr;
        if 0 <= sum {
            return rounded(sum as u64);
        }
        let short = sum.unsigned_abs();
        if rest == 0 {
            return -rounded(short);
        }
        -rounded(short - 1)
    }

    // The rolls, and the ADR less these.
    fn less_rolls(self) -> Corrected
        ensures { result ≡ record { rolls = rolls_of self.range self.adr; adr = corrected_of self.range self.adr } }
    {
        let rolls = self.rolls();
        Corrected {
            rolls,
            adr: self.adr - 2147483648 * rolls,
        }
    }
}

// ---- reading

#[tactic(auto, unfolding(crate::specs::Record::record_of), using(bits::proofs::Fields::field_fits))]
fn record_of(bytes: &[u8]) -> Record
    ensures { result ≡ record_of bytes.now }
{
    Record {
        status: STATUS.read(bytes),
        doppler: DOPPLER.read_signed(bytes),
        range: RANGE.read(bytes),
        adr: ADR.read_signed(bytes),
        range_deviation: RANGE_DEVIATION.read(bytes),
        adr_deviation: ADR_DEVIATION.read(bytes),
        prn: PRN.read(bytes),
        lock: LOCK.read(bytes),
        cn0: CN0.read(bytes) + 20,
        reserved: RESERVED.read(bytes),
    }
}

// The record in exactly 24 bytes (13).
#[tactic(auto, unfolding(crate::specs::Entries::reading_of))]
pub fn read_record(bytes: &[u8]) -> Result<Record, Refusal>
    ensures { result ≡ reading_of bytes.now }
{
    if bytes.len() == 24 {
        Ok(record_of(bytes))
    } else {
        Err(Refusal::OtherLength)
    }
}

// The rolls of a record's ADR, and the ADR less these (13, then 22).
pub fn corrected_adr(bytes: &[u8]) -> Result<Corrected, Refusal>
    ensures { result ≡ correction_of bytes.now }
{
    if bytes.len() != 24 {
        return Err(Refusal::OtherLength);
    }
    if SYSTEM.read(bytes) != 0 {
        return Err(Refusal::OtherSignal);
    }
    if SIGNAL.read(bytes) != 0 {
        return Err(Refusal::OtherSignal);
    }
    let range = RANGE.read(bytes);
    let adr = ADR.read_signed(bytes);
    Ok(Measured { range, adr }.less_rolls())
}

// ---- writing

// Whether every field holds its number. By `&`, not `&&`: one jump behind eleven tests, and writing a record takes a quarter less.
#[tactic(auto, unfolding(crate::specs::Record::fits))]
fn fitting(r: Record) -> bool
    ensures { result ≡ fits r }
{
    STATUS.holds(r.status)
        & DOPPLER.holds_signed(r.doppler)
        & RANGE.holds(r.range)
        & ADR.holds_signed(r.adr)
        & RANGE_DEVIATION.holds(r.range_deviation)
        & ADR_DEVIATION.holds(r.adr_deviation)
        & PRN.holds(r.prn)
        & LOCK.holds(r.lock)
        & (20 <= r.cn0)
        & (r.cn0 < 52)
        & RESERVED.holds(r.reserved)
}

// A record into its 24 bytes.
fn fill(bytes: &mut [u8], r: Record)
    requires { (length bytes.old ≡ 24) × (20 ≤ r.cn0) }
    ensures { bytes.new ≡ record_bytes r }
{
    STATUS.write(bytes, r.status);
    DOPPLER.write_signed(bytes, r.doppler);
    RANGE.write(bytes, r.range);
    ADR.write_signed(bytes, r.adr);
    RANGE_DEVIATION.write(bytes, r.range_deviation);
    ADR_DEVIATION.write(bytes, r.adr_deviation);
    PRN.write(bytes, r.prn);
    LOCK.write(bytes, r.lock);
    CN0.write(bytes, r.cn0 - 20);
    RESERVED.write(bytes, r.reserved);
}

// The record at the front of `out`: its length, 24 (23, then 6).
#[tactic(auto, using(crate::proofs::WriteSteps::least_cn0), unfolding(crate::specs::Entries::writing_of, crate::specs::Entries::writing_bytes))]
pub fn write_record(out: &mut [u8], fields: Record) -> Result<usize, Refusal>
    ensures { (result ≡ writing_of fields out.old) × (out.new ≡ writing_bytes fields out.old) }
{
    if !fitting(fields) {
        return Err(Refusal::TooWide);
    }
    if out.len() < 24 {
        return Err(Refusal::NoRoom);
    }
    fill(&mut out[..24], fields);
    Ok(24)
}

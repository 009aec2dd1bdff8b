// Numbers for the people who compute the track, from the fields that a message carries: range, plot row, phase, CONDITION and OFFSET.
#![tactic(auto)]

ghost use Rattle.std.specs.Prelude.{◌≡◌, ◌<◌};
ghost use Rattle.track.specs.Range.{range_of};
ghost use Rattle.track.specs.Row.{row_of, Bounded};
ghost use Rattle.track.specs.Condition.{bit, polarity_code, polarity_of, flags_of, condition_of};
ghost use Rattle.track.specs.Shown.{cycles_with, phase_of, offset_of, PhaseShows, OffsetShows};

use macm::{Form, Header, Observation};

mod narrow;

// A row for the plot: range in metres and rate in hertz.
#[repr(C)]
#[derive(Clone, Copy, Debug, PartialEq)]
pub struct PlotRow {
    pub range: f64,
    pub rate: f64,
}

// PHASE as it may be shown, with what its polarity says of it. Cycles are the double with the bits of the message: nothing is added to them.
#[derive(Clone, Copy, Debug, PartialEq)]
pub enum Phase {
    // An observation of the old form, or one whose CONDITION says that PHASE is not valid.
    Withheld,
    // An infinity or a NaN.
    NotFinite,
    // Nobody knows whether half a cycle is due.
    PolarityUnknown(f64),
    // Not corrected since lock: nothing is due.
    NotCorrected(f64),
    // Half a cycle is due.
    DueHalf(f64),
    // A polarity code that 000 does not define, and the cycles.
    PolarityUndefined(u8, f64),
}

// OFFSET as it may be shown.
#[derive(Clone, Copy, Debug, PartialEq)]
pub enum Offset {
    // An infinity or a NaN.
    NotFinite,
    // The float with the bits of the message.
    Metres(f32),
}

// PHASE Polarity State, by its code.
#[derive(Clone, Copy, Debug, PartialEq, Eq)]
pub enum Polarity {
    // 0.
    NotKnown,
    // 5: not corrected, was correct at initial lock on.
    NotCorrected,
    // 7: now correct, requires half a cycle's adjustment.
    NeedsHalfCycle,
    // Any code that 000 does not define.
    Undefined(u8),
}

// CONDITION in the new form, by the names of 000's table 5. `maker` is the four highest bits, which the maker defines.
#[derive(Clone, Copy, Debug, PartialEq, Eq)]
pub struct Flags {
    pub satellite_health: bool,
    pub pr_validity: bool,
    pub phase_validity: bool,
    pub rate_validity: bool,
    pub pr_iono_corrected: bool,
    pub phase_iono_corrected: bool,
    pub pr_tropo_corrected: bool,
    pub phase_tropo_corrected: bool,
    pub polarity: Polarity,
    pub jam_detect: bool,
    pub maker: u8,
}

// What CONDITION says: in the old form the maker defines every bit.
#[derive(Clone, Copy, Debug, PartialEq, Eq)]
pub enum Condition {
    Flagged(Flags),
    MakerDefined(u16),
}

// ---- range and rate

// The range in whole micrometres, to the nearest: in a count of PR light goes 149896229 / 15,000 of them.
pub fn range_of(pseudorange: u32) -> u64
    ensures { result ≡ range_of pseudorange }
{
    narrow::range(pseudorange)
}

// The row of PR and RATE. A range is below 2^53 micrometres and RATE below 2^31, so both are doubles exactly, and each division rounds once.
pub fn plot_row(pseudorange: u32, rate: i32) -> PlotRow
    ensures { (result ≡ row_of pseudorange rate) × Bounded pseudorange rate result }
{
    let micrometres = range_of(pseudorange);
    PlotRow {
        range: micrometres as f64 / 1000000.0,
        rate: rate as f64 / 10000.0,
    }
}

// ---- phase and OFFSET

// The case of cycles with this polarity.
fn cycles_with(polarity: Polarity, cycles: f64) -> Phase
    ensures { result ≡ cycles_with polarity cycles }
{
    match polarity {
        Polarity::NotKnown => Phase::PolarityUnknown(cycles),
        Polarity::NotCorrected => Phase::NotCorrected(cycles),
        Polarity::NeedsHalfCycle => Phase::DueHalf(cycles),
        Polarity::Undefined(code) => Phase::PolarityUndefined(code, cycles),
    }
}

// PHASE, as the form, then the flag, then the exponent allow, and only then by its polarity: the exponent is the eleven bits under the sign.
pub fn phase_of(form: Form, observation: Observation) -> Phase
    ensures { (result ≡ phase_of form observation) × PhaseShows result observation.phase }
{
    let bits = observation.phase;
    if let Form::Old { .. } = form {
        return Phase::Withheld;
    }
    if !bit(observation.condition, 2) {
        return Phase::Withheld;
    }
    if bits / 0x10_0000_0000_0000 % 0x800 == 0x7FF {
        return Phase::NotFinite;
    }
    let cycles = f64::from_bits(bits);
    cycles_with(polarity_of(observation.condition), cycles)
}

// OFFSET, as its exponent allows: the eight bits under the sign.
pub fn offset_of(header: Header) -> Offset
    ensures { (result ≡ offset_of header) × OffsetShows result header.offset }
{
    let bits = header.offset;
    if bits / 0x80_0000 % 0x100 == 0xFF {
        return Offset::NotFinite;
    }
    let metres = f32::from_bits(bits);
    Offset::Metres(metres)
}

// ---- CONDITION

// By the code in bits 8 to 10, of which 0, 5 and 7 are defined. No From<u8>: it is of CONDITION, so that the code's bits are cut out in one place.
#[tactic(auto, unfolding(crate::specs::Condition::polarity_of))]
fn polarity_of(condition: u16) -> Polarity
    ensures { result ≡ polarity_of (polarity_code condition) }
{
    let code = (condition / 256 % 8) as u8;
    match code {
        0 => Polarity::NotKnown,
        5 => Polarity::NotCorrected,
        7 => Polarity::NeedsHalfCycle,
        _ => Polarity::Undefined(code),
    }
}

// Bit k stands for 2^k.
fn bit(condition: u16, k: u32) -> bool
    requires { k < 16 }
    ensures { result ≡ bit k condition }
{
    (condition >> k) % 2 == 1
}

#[tactic(auto, unfolding(crate::specs::Condition::flags_of))]
fn flags_of(condition: u16) -> Flags
    ensures { result ≡ flags_of condition }
{
    let polarity = polarity_of(condition);
    let maker = (condition / 4096) as u8;
    Flags {
        satellite_health: bit(condition, 0),
        pr_validity: bit(condition, 1),
        phase_validity: bit(condition, 2),
        rate_validity: bit(condition, 3),
        pr_iono_corrected: bit(condition, 4),
        phase_iono_corrected: bit(condition, 5),
        pr_tropo_corrected: bit(condition, 6),
        phase_tropo_corrected: bit(condition, 7),
        polarity,
        jam_detect: bit(condition, 11),
        maker,
    }
}

// What CONDITION says in this form.
pub fn condition_of(form: Form, observation: Observation) -> Condition
    ensures { result ≡ condition_of form observation }
{
    match form {
        Form::New { .. } => Condition::Flagged(flags_of(observation.condition)),
        Form::Old { .. } => Condition::MakerDefined(observation.condition),
    }
}

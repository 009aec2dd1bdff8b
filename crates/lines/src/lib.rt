// The lines that the programs print, put into a `Text`: of a message in the listing, of an observation for the people who compute the track, of a break
// of lock, and the listing's last.
#![tactic(auto)]

ghost use Rattle.std.specs.Prelude.{◌≡◌, ◌++◌, ◌*◌, ◌≤◌, length};
ghost use Rattle.text.specs.Put.{appended};
ghost use Rattle.lines.specs.Listing.{form_text, message_text, line_text, end_text};
ghost use Rattle.history.specs.Calls.{claimed_call};
ghost use Rattle.lines.specs.Breaks.{which_text, break_text, breaks_up_to, Prints};
ghost use Rattle.lines.specs.Rows.{head_text, range_text, phase_text, polarity_text, shown_text, observation_text, rows_up_to, rows_text};

use history::Break;
use macm::{Claimed, Form, Header, Observation};
use text::Text;
use track::Phase;

// ---- the listing

fn put_form(text: &mut Text, form: Form)
    ensures { text.new ≡ appended (form_text form) text.old }
{
    match form {
        Form::New { .. } => text.put_all(b"v2 "),
        Form::Old { .. } => text.put_all(b"v1 "),
    }
}

// The columns of a message's line.
#[tactic(auto, using(text::proofs::PutLaws::appended_twice))]
fn put_read(text: &mut Text, position: u64, bytes: u16, head: Header, count: u8)
    ensures { text.new ≡ appended (message_text position bytes head count) text.old }
{
    text.put_number(position, b' ');
    text.put_short(bytes, b' ');
    put_form(text, head.form);
    text.put_short(count as u16, b' ');
    text.put_long(head.time, b'\n');
}

// The line of a message at a position, as its bytes claim it: none where they claim no message. The checksum was run in the division.
#[tactic(auto, using(text::proofs::PutLaws::appended_none), unfolding(macm::specs::Read::claimed_head, macm::specs::Read::head_by, macm::specs::Claimed::claimed_by))]
pub fn put_line(text: &mut Text, position: u64, message: &[u8])
    ensures { text.new ≡ appended (line_text position message.now) text.old }
{
    let Ok(claimed) = Claimed::of(message) else {
        return;
    };
    put_read(
        text,
        position,
        message.len() as u16,
        claimed.header(),
        claimed.count(),
    );
}

// The last line: all bytes, all messages, all gap bytes.
#[tactic(auto, using(text::proofs::PutLaws::appended_twice))]
pub fn put_end(text: &mut Text, bytes: u64, messages: u64, gap: u64)
    ensures { text.new ≡ appended (end_text bytes messages gap) text.old }
{
    text.put_count(b"end ", bytes, b' ');
    text.put_count(b"messages ", messages, b' ');
    text.put_count(b"gap ", gap, b'\n');
}

// ---- an observation's row

// The message's position, its time, its form and TYPE, which the old form does not have.
#[tactic(auto, using(text::proofs::PutLaws::appended_twice))]
fn put_head(text: &mut Text, position: u64, header: Header)
    ensures { text.new ≡ appended (head_text position header) text.old }
{
    text.put_number(position, b' ');
    text.put_number(header.time as u64, b' ');
    match header.form {
        Form::New { signal, .. } => text.put_count(b"v2 ", signal as u64, b' '),
        Form::Old { .. } => text.put_all(b"v1 - "),
    }
}

// SID, C/N0, CONDITION and the range in metres.
#[tactic(auto, using(text::proofs::PutLaws::appended_twice))]
fn put_range(text: &mut Text, observation: Observation)
    ensures { text.new ≡ appended (range_text observation) text.old }
{
    text.put_number(observation.sid as u64, b' ');
    text.put_number(observation.cn0 as u64, b' ');
    text.put_hex(observation.condition as u64, 4);
    text.put(b' ');
    text.put_metres(track::range_of(observation.pseudorange));
    text.put(b' ');
}

// The phase as it may be shown: of a double that may be, its bits.
fn put_phase(text: &mut Text, phase: Phase, bits: u64)
    ensures { text.new ≡ appended (phase_text phase bits) text.old }
{
    match phase {
        Phase::Withheld => text.put_all(b"withheld"),
        Phase::NotFinite => text.put_all(b"nonfinite"),
        Phase::PolarityUnknown(_)
        | Phase::NotCorrected(_)
        | Phase::DueHalf(_)
        | Phase::PolarityUndefined(_, _) => text.put_cycles(bits),
    }
}

// The word for the phase's polarity: none stands beside one that has no cycles.
fn put_polarity(text: &mut Text, phase: Phase)
    ensures { text.new ≡ appended (polarity_text phase) text.old }
{
    match phase {
        Phase::Withheld | Phase::NotFinite => text.put_all(b"- "),
        Phase::PolarityUnknown(_) => text.put_all(b"unknown "),
        Phase::NotCorrected(_) => text.put_all(b"uncorrected "),
        Phase::DueHalf(_) => text.put_all(b"half "),
        Phase::PolarityUndefined(code, _) => text.put_count(b"undefined", code as u64, b' '),
    }
}

// The phase in cycles, PHASE's bits, and the polarity, which is the phase's own.
#[tactic(auto, using(text::proofs::PutLaws::appended_twice))]
fn put_shown(text: &mut Text, form: Form, observation: Observation)
    ensures { text.new ≡ appended (shown_text form observation) text.old }
{
    let phase = track::phase_of(form, observation);
    put_phase(text, phase, observation.phase);
    text.put(b' ');
    text.put_hex(observation.phase, 16);
    text.put(b' ');
    put_polarity(text, phase);
}

// What stands at the front of all rows of a message, then the observation's own columns: the rate in hertz and the time since lock in milliseconds end
// the row.
#[tactic(auto, using(text::proofs::PutLaws::appended_twice))]
fn put_row(text: &mut Text, head: &[u8], form: Form, observation: Observation)
    ensures { text.new ≡ appended (head.now ++ observation_text form observation) text.old }
{
    text.put_all(head);
    put_range(text, observation);
    put_shown(text, form, observation);
    text.put_hertz(observation.rate);
    text.put(b' ');
    text.put_number(units::since_lock(observation.lock).number(), b'\n');
}

// The rows of all observations of a message.
#[tactic(auto, using(crate::proofs::RowSteps::rows_none, crate::proofs::RowSteps::rows_more))]
fn put_observations(text: &mut Text, head: &[u8], claimed: &Claimed)
    ensures { text.new ≡ appended (rows_up_to claimed.now.count head.now claimed.now.form claimed.now.count claimed.now.bytes) text.old }
{
    let form = claimed.form();
    for observation in claimed.observations() {
        put_row(text, head, form, observation);
    }
}

// The rows of all observations of the message at a position, as its bytes claim it. What is the same in all of them is put together once.
#[tactic(auto, using(text::proofs::PutLaws::appended_none, crate::proofs::Width::head_front, crate::proofs::RowSteps::rows_claimed), unfolding(macm::specs::Read::claimed_head, macm::specs::Read::head_by, macm::specs::Claimed::claimed_by))]
pub fn put_rows(text: &mut Text, position: u64, message: &[u8])
    ensures { text.new ≡ appended (rows_text position message.now) text.old }
{
    let Ok(claimed) = Claimed::of(message) else {
        return;
    };
    let mut space = [0u8; 80];
    let mut head = Text::new(&mut space);
    put_head(&mut head, position, claimed.header());
    put_observations(text, head.written(), &claimed);
}

// ---- the breaks of lock

// By its number, as the lent list has it: as a `Break` it would need a case for numbers that never stand there.
fn put_which(text: &mut Text, which: u64)
    ensures { text.new ≡ appended (which_text which) text.old }
{
    if which == Break::ClockBack as u64 {
        text.put_all(b"clock-back\n");
    } else {
        text.put_all(b"new-lock\n");
    }
}

// The line of a break in the message at a position.
#[tactic(auto, using(text::proofs::PutLaws::appended_twice))]
fn put_break(text: &mut Text, position: u64, sid: u64, time: u64, which: u64)
    ensures { text.new ≡ appended (break_text position sid time which) text.old }
{
    text.put_number(position, b' ');
    text.put_number(sid, b' ');
    text.put_number(time, b' ');
    put_which(text, which);
}

// The lines of the first breaks of a list.
fn put_listed(text: &mut Text, position: u64, list: &[u64], count: usize)
    requires { 3 * count ≤ length list.now }
    ensures { text.new ≡ appended (breaks_up_to count position list.now) text.old }
{
    for row in list[..3 * count].chunks_exact(3) {
        put_break(text, position, row[0], row[1], row[2]);
    }
}

// The lines of the breaks in the message at a position, as its bytes claim it, after those that the history has taken.
#[tactic(auto, using(text::proofs::PutLaws::appended_none))]
pub fn put_breaks(
    text: &mut Text,
    position: u64,
    message: &[u8],
    history: &mut [u64; history::WORDS],
    list: &mut [u64],
)
    ensures { Prints text.old position (claimed_call message.now history.old list.old) text.new history.new list.new }
{
    let Ok(count) = history::claimed_breaks(message, history, list) else {
        return;
    };
    put_listed(text, position, list, count);
}

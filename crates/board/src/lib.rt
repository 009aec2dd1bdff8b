// What the entries for a C host do, which board_c exports: each is thin over the library below it. Structs of 64-bit words go by value, and the stream
// reader's state is lent for the call.
#![tactic(auto)]

ghost use Rattle.std.specs.Prelude.{◌≡◌, length};
ghost use Rattle.macm.specs.Check.{verdict};
ghost use Rattle.macm.specs.Read.{head_of, observed_of};
ghost use Rattle.macm.specs.Answers.{check_number};
ghost use Rattle.compose.specs.Start.{start_of, start_bytes};
ghost use Rattle.compose.specs.Set.{set_of, set_bytes};
ghost use Rattle.compose.specs.Convert.{convert_of, convert_bytes};
ghost use Rattle.refusal.specs.Written.{written_number};
ghost use Rattle.division.specs.Plain.{next_of};
ghost use Rattle.reason.specs.Reason.{reason_of};
ghost use Rattle.history.specs.Words.{fresh_words};
ghost use Rattle.history.specs.Calls.{next_call};
ghost use Rattle.stream.specs.Reader.{fresh_state, feed_call, finish_call};
ghost use Rattle.track.specs.Range.{range_of};
ghost use Rattle.track.specs.Row.{row_of, Bounded};
ghost use Rattle.track.specs.Shown.{phase_of};
ghost use Rattle.units.specs.Units.{lock_of, lock_millis, millis_in};
ghost use Rattle.novatel.specs.Deviations.{range_deviation, adr_deviation};
ghost use Rattle.novatel.specs.Entries.{reading_of, writing_of, writing_bytes, correction_of};
ghost use Rattle.words.specs.Words.{form_in, header_in, observation_in, record_in, head_words, observed_words, written_words, found_words, reason_words, phase_words, record_words, adr_words};
ghost use Rattle.board.specs.Lent.{Finds, Lists};

use macm::Form;
use stream::State;
use words::{AnswerWords, HeaderWords, ObservationWords, RecordWords, WrittenWords};

// ---- one message

pub fn cs_check(message: &[u8]) -> u64
    ensures { result ≡ check_number (verdict message.now) }
{
    macm::check(message).err().map_or(0, refusal::number)
}

pub fn cs_read_header(message: &[u8]) -> words::HeadWords
    ensures { result ≡ head_words (head_of message.now) }
{
    macm::read_header(message).into()
}

pub fn cs_read_observation(message: &[u8], index: usize) -> words::ObservedWords
    ensures { result ≡ observed_words (observed_of message.now index) }
{
    macm::read_observation(message, index).into()
}

pub fn cs_start(output: &mut [u8], header: HeaderWords, count: u8) -> WrittenWords
    ensures { (result ≡ written_words (start_of (header_in header) count output.old)) × (output.new ≡ start_bytes (header_in header) count output.old) }
{
    compose::start(output, header.into(), count).into()
}

pub fn cs_set(message: &mut [u8], index: usize, observation: ObservationWords) -> u64
    ensures { (result ≡ written_number (set_of message.old index)) × (message.new ≡ set_bytes message.old index (observation_in observation)) }
{
    let written = compose::set(message, index, observation.into());
    written.err().map_or(0, refusal::number)
}

pub fn cs_to_new(message: &[u8], signal: u8, tfom: u8, output: &mut [u8]) -> WrittenWords
    ensures { (result ≡ written_words (convert_of (Form.New signal tfom) message.now output.old)) × (output.new ≡ convert_bytes (Form.New signal tfom) message.now output.old) }
{
    compose::to_new(message, signal, tfom, output).into()
}

pub fn cs_to_old(message: &[u8], version: u8, output: &mut [u8]) -> WrittenWords
    ensures { (result ≡ written_words (convert_of (Form.Old version) message.now output.old)) × (output.new ≡ convert_bytes (Form.Old version) message.now output.old) }
{
    compose::to_old(message, version, output).into()
}

// ---- a recording, whole and in pieces

pub fn cs_next(recording: &[u8], start: usize) -> words::FoundWords
    ensures { result ≡ found_words (next_of recording.now start) }
{
    division::next_message(recording, start).into()
}

pub fn cs_why(recording: &[u8], position: usize) -> words::ReasonWords
    ensures { result ≡ reason_words (reason_of recording.now position) }
{
    reason::reason_at(recording, position).into()
}

pub fn cs_fresh() -> State
    ensures { result ≡ fresh_state }
{
    stream::fresh()
}

// Feeds a reader whose state the host keeps.
pub fn cs_feed(state: &mut State, piece: &[u8], window: &mut [u8], output: &mut [u8]) -> AnswerWords
    ensures { Finds (feed_call state.old piece.now window.old output.old) (length piece.now) state.new result window.new output.new }
{
    let reply = stream::feed(*state, piece, window, output);
    *state = reply.state;
    words::answer_words(reply, piece.len() as u64)
}

// Finishes a reader whose state the host keeps.
pub fn cs_finish(state: &mut State, window: &mut [u8], output: &mut [u8]) -> AnswerWords
    ensures { Finds (finish_call state.old window.old output.old) 0 state.new result window.new output.new }
{
    let reply = stream::finish(*state, window, output);
    *state = reply.state;
    words::answer_words(reply, 0)
}

// ---- where lock broke

pub fn cs_breaks_fresh(history: &mut [u64; history::WORDS], signal: u8)
    ensures { history.new ≡ fresh_words signal }
{
    history::fresh(history, signal);
}

pub fn cs_breaks(
    message: &[u8],
    history: &mut [u64; history::WORDS],
    list: &mut [u64],
) -> words::ListedWords
    ensures { Lists (next_call message.now history.old list.old) result history.new list.new }
{
    history::next_breaks(message, history, list).into()
}

// ---- numbers for the track people

pub fn cs_range_um(pseudorange: u32) -> u64
    ensures { result ≡ range_of pseudorange }
{
    track::range_of(pseudorange)
}

pub fn cs_lock_ms(lock: u32) -> u64
    ensures { result ≡ millis_in (lock_millis (lock_of lock)) }
{
    units::since_lock(units::LockCount::from_count(lock)).number()
}

pub fn cs_phase(form: u64, observation: ObservationWords) -> words::PhaseWords
    ensures { result ≡ phase_words (phase_of (form_in form 0 0 0) (observation_in observation)) }
{
    let form = Form::from(HeaderWords {
        form,
        ..HeaderWords::default()
    });
    track::phase_of(form, observation.into()).into()
}

pub fn cs_plot_row(pseudorange: u32, rate: i32) -> track::PlotRow
    ensures { (result ≡ row_of pseudorange rate) × Bounded pseudorange rate result }
{
    track::plot_row(pseudorange, rate)
}

// ---- NovAtel's range record

pub fn cs_rangecmp_read(bytes: &[u8]) -> RecordWords
    ensures { result ≡ record_words (reading_of bytes.now) }
{
    novatel::read_record(bytes).into()
}

pub fn cs_rangecmp_write(output: &mut [u8], fields: RecordWords) -> WrittenWords
    ensures { (result ≡ written_words (writing_of (record_in fields) output.old)) × (output.new ≡ writing_bytes (record_in fields) output.old) }
{
    novatel::write_record(output, fields.into()).into()
}

pub fn cs_rangecmp_adr(bytes: &[u8]) -> words::AdrWords
    ensures { result ≡ adr_words (correction_of bytes.now) }
{
    novatel::corrected_adr(bytes).into()
}

pub fn cs_rangecmp_range_mm(code: u64) -> u64
    ensures { result ≡ range_deviation code }
{
    novatel::deviation_of_range(code)
}

pub fn cs_rangecmp_adr_512ths(code: u64) -> u64
    ensures { result ≡ adr_deviation code }
{
    novatel::deviation_of_adr(code)
}

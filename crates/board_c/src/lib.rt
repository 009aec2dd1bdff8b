// The entries for a C host, declared in include/cablesound.h: each calls the function of its name in board, and says
// the same. A slice comes in as pointer and length, structs of 64-bit words go by value, and the stream reader's state is lent for the call.
#![tactic(auto)]

ghost use Rattle.std.specs.Prelude.{◌≡◌, length};
ghost use Rattle.macm.specs.Check.{verdict};
ghost use Rattle.macm.specs.Read.{head_of, observed_of};
ghost use Rattle.macm.specs.Answers.{check_number};
ghost use Rattle.compose.specs.Start.{start_of, start_bytes};
ghost use Rattle.compose.specs.Set.{set_of, set_bytes};
ghost use Rattle.compose.specs.Convert.{convert_of, convert_bytes};
ghost use Rattle.refusal.specs.Written.{written_number};
ghost use Rattle.division.specs.Plain.{next_of};
ghost use Rattle.reason.specs.Reason.{reason_of};
ghost use Rattle.history.specs.Words.{fresh_words};
ghost use Rattle.history.specs.Calls.{next_call};
ghost use Rattle.stream.specs.Reader.{fresh_state, feed_call, finish_call};
ghost use Rattle.track.specs.Range.{range_of};
ghost use Rattle.track.specs.Row.{row_of, Bounded};
ghost use Rattle.track.specs.Shown.{phase_of};
ghost use Rattle.units.specs.Units.{lock_of, lock_millis, millis_in};
ghost use Rattle.novatel.specs.Deviations.{range_deviation, adr_deviation};
ghost use Rattle.novatel.specs.Entries.{reading_of, writing_of, writing_bytes, correction_of};
ghost use Rattle.words.specs.Words.{form_in, header_in, observation_in, record_in, head_words, observed_words, written_words, found_words, reason_words, phase_words, record_words, adr_words};
ghost use Rattle.board.specs.Lent.{Finds, Lists};

use macm::Form;
use stream::State;
use words::{AnswerWords, HeaderWords, ObservationWords, RecordWords, WrittenWords};

// ---- one message

#[unsafe(no_mangle)]
pub extern "C" fn cs_check(message: &[u8]) -> u64
    ensures { result ≡ check_number (verdict message.now) }
{
    board::cs_check(message)
}

#[unsafe(no_mangle)]
pub extern "C" fn cs_read_header(message: &[u8]) -> words::HeadWords
    ensures { result ≡ head_words (head_of message.now) }
{
    board::cs_read_header(message)
}

#[unsafe(no_mangle)]
pub extern "C" fn cs_read_observation(message: &[u8], index: usize) -> words::ObservedWords
    ensures { result ≡ observed_words (observed_of message.now index) }
{
    board::cs_read_observation(message, index)
}

#[unsafe(no_mangle)]
pub extern "C" fn cs_start(output: &mut [u8], header: HeaderWords, count: u8) -> WrittenWords
    ensures { (result ≡ written_words (start_of (header_in header) count output.old)) × (output.new ≡ start_bytes (header_in header) count output.old) }
{
    board::cs_start(output, header, count)
}

#[unsafe(no_mangle)]
pub extern "C" fn cs_set(message: &mut [u8], index: usize, observation: ObservationWords) -> u64
    ensures { (result ≡ written_number (set_of message.old index)) × (message.new ≡ set_bytes message.old index (observation_in observation)) }
{
    board::cs_set(message, index, observation)
}

#[unsafe(no_mangle)]
pub extern "C" fn cs_to_new(message: &[u8], signal: u8, tfom: u8, output: &mut [u8]) -> WrittenWords
    ensures { (result ≡ written_words (convert_of (Form.New signal tfom) message.now output.old)) × (output.new ≡ convert_bytes (Form.New signal tfom) message.now output.old) }
{
    board::cs_to_new(message, signal, tfom, output)
}

#[unsafe(no_mangle)]
pub extern "C" fn cs_to_old(message: &[u8], version: u8, output: &mut [u8]) -> WrittenWords
    ensures { (result ≡ written_words (convert_of (Form.Old version) message.now output.old)) × (output.new ≡ convert_bytes (Form.Old version) message.now output.old) }
{
    board::cs_to_old(message, version, output)
}

// ---- a recording, whole and in pieces

#[unsafe(no_mangle)]
pub extern "C" fn cs_next(recording: &[u8], start: usize) -> words::FoundWords
    ensures { result ≡ found_words (next_of recording.now start) }
{
    board::cs_next(recording, start)
}

#[unsafe(no_mangle)]
pub extern "C" fn cs_why(recording: &[u8], position: usize) -> words::ReasonWords
    ensures { result ≡ reason_words (reason_of recording.now position) }
{
    board::cs_why(recording, position)
}

#[unsafe(no_mangle)]
pub extern "C" fn cs_fresh() -> State
    ensures { result ≡ fresh_state }
{
    board::cs_fresh()
}

// Feeds a reader whose state the host keeps.
#[unsafe(no_mangle)]
pub extern "C" fn cs_feed(
    state: &mut State,
    piece: &[u8],
    window: &mut [u8],
    output: &mut [u8],
) -> AnswerWords
    ensures { Finds (feed_call state.old piece.now window.old output.old) (length piece.now) state.new result window.new output.new }
{
    board::cs_feed(state, piece, window, output)
}

// Finishes a reader whose state the host keeps.
#[unsafe(no_mangle)]
pub extern "C" fn cs_finish(state: &mut State, window: &mut [u8], output: &mut [u8]) -> AnswerWords
    ensures { Finds (finish_call state.old window.old output.old) 0 state.new result window.new output.new }
{
    board::cs_finish(state, window, output)
}

// ---- where lock broke

#[unsafe(no_mangle)]
pub extern "C" fn cs_breaks_fresh(history: &mut [u64; history::WORDS], signal: u8)
    ensures { history.new ≡ fresh_words signal }
{
    board::cs_breaks_fresh(history, signal);
}

#[unsafe(no_mangle)]
pub extern "C" fn cs_breaks(
    message: &[u8],
    history: &mut [u64; history::WORDS],
    list: &mut [u64],
) -> words::ListedWords
    ensures { Lists (next_call message.now history.old list.old) result history.new list.new }
{
    board::cs_breaks(message, history, list)
}

// ---- numbers for the track people

#[unsafe(no_mangle)]
pub extern "C" fn cs_range_um(pseudorange: u32) -> u64
    ensures { result ≡ range_of pseudorange }
{
    board::cs_range_um(pseudorange)
}

#[unsafe(no_mangle)]
pub extern "C" fn cs_lock_ms(lock: u32) -> u64
    ensures { result ≡ millis_in (lock_millis (lock_of lock)) }
{
    board::cs_lock_ms(lock)
}

#[unsafe(no_mangle)]
pub extern "C" fn cs_phase(form: u64, observation: ObservationWords) -> words::PhaseWords
    ensures { result ≡ phase_words (phase_of (form_in form 0 0 0) (observation_in observation)) }
{
    board::cs_phase(form, observation)
}

#[unsafe(no_mangle)]
pub extern "C" fn cs_plot_row(pseudorange: u32, rate: i32) -> track::PlotRow
    ensures { (result ≡ row_of pseudorange rate) × Bounded pseudorange rate result }
{
    board::cs_plot_row(pseudorange, rate)
}

// ---- NovAtel's range record

#[unsafe(no_mangle)]
pub extern "C" fn cs_rangecmp_read(bytes: &[u8]) -> RecordWords
    ensures { result ≡ record_words (reading_of bytes.now) }
{
    board::cs_rangecmp_read(bytes)
}

#[unsafe(no_mangle)]
pub extern "C" fn cs_rangecmp_write(output: &mut [u8], fields: RecordWords) -> WrittenWords
    ensures { (result ≡ written_words (writing_of (record_in fields) output.old)) × (output.new ≡ writing_bytes (record_in fields) output.old) }
{
    board::cs_rangecmp_write(output, fields)
}

#[unsafe(no_mangle)]
pub extern "C" fn cs_rangecmp_adr(bytes: &[u8]) -> words::AdrWords
    ensures { result ≡ adr_words (correction_of bytes.now) }
{
    board::cs_rangecmp_adr(bytes)
}

#[unsafe(no_mangle)]
pub extern "C" fn cs_rangecmp_range_mm(code: u64) -> u64
    ensures { result ≡ range_deviation code }
{
    board::cs_rangecmp_range_mm(code)
}

#[unsafe(no_mangle)]
pub extern "C" fn cs_rangecmp_adr_512ths(code: u64) -> u64
    ensures { result ≡ adr_deviation code }
{
    board::cs_rangecmp_adr_512ths(code)
}

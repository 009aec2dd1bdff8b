// What the programs share: a recording comes in on standard input in large blocks, is divided where it stands in the buffer, and its lines go out in
// large blocks. What a line says is proved in `lines` and `account`, that blocks divided so give the division of the recording in `promises`; what a
// program prints is held to stored output.
#![tactic(auto)]

ghost use Rattle.std.specs.Prelude.{◌≡◌, IfOk, length};
ghost use Rattle.report.specs.Ends.{status_of};
ghost use Rattle.report.specs.Within.{Within};

use blocks::Block;
use division::Walked;
use pending::Pending;
use printer::{Breaks, Listing, Printer, Rows};
use std::env::{Env, FillError};
use std::io;
use std::io::ErrorKind;
use text::Text;

mod blocks;
mod failure;
mod pending;
mod printer;

// The status of a process that SIGPIPE ends: a reader that goes away, as `head` does, is no failure.
const READER_GONE: u8 = 141;

const FAILED: u8 = 1;

// ---- in and out

// Reads the next block: how the input ended, where it did. Where reading fails that is said, and the input is over.
fn read_on<const N: usize>(rt: &HostRuntime, pending: &mut Pending<N>) -> Option<io::Result<()>> {
    match pending.read(&mut rt.stdin()) {
        Ok(0) => Some(Ok(())),
        Ok(_) => None,
        Err(error) => {
            say_failure(rt, "standard input", &error);
            Some(Err(error))
        }
    }
}

// Writes out the text that waits, or says why it cannot. That a reader has gone away, as `head` does, is no failure.
fn write_out(rt: &HostRuntime, text: &mut Text) -> io::Result<()> {
    let written = blocks::write_out(&mut rt.stdout(), text.written());
    text.clear();
    if let Err(error) = written {
        if error.kind() != ErrorKind::BrokenPipe {
            say_failure(rt, "standard output", &error);
        }
    }
    written
}

// ---- the division

// A walk over the bytes stops within them.
fn walk(over: bool, bytes: &[u8]) -> Walked
    ensures { Within (length bytes.now) result }
{
    division::walk(over, bytes).walked
}

// All messages of the recording. What waits is written out before each read, since a live line may keep a read waiting for as long as it likes; and
// where it is much, so that a message's text always has room behind it: of 255 rows none takes 250 bytes. An input has an end, though nothing says so:
// the turns are counted up to a number that no run reaches.
fn print_recording<P: Printer>(
    rt: &HostRuntime,
    printer: &mut P,
    heading: &[u8],
) -> io::Result<()> {
    let mut pending = Pending::<131072>::new();
    let mut buffer = [0u8; 131072];
    let mut text = Text::new(&mut buffer);
    text.put_all(heading);
    let mut position = 0u64;
    let mut ended: Option<io::Result<()>> = None;
    for _ in 0..u64::MAX {
        match walk(ended.is_some(), pending.bytes()) {
            Walked::Message { gap, length, .. } => {
                let start = position.wrapping_add(gap as u64);
                printer.print(&mut text, start, &pending.bytes()[gap..gap + length]);
                position = start.wrapping_add(length as u64);
                pending.pass(gap + length);
                if text.at() > 65536 {
                    let written = write_out(rt, &mut text);
                    if written.is_err() {
                        return ended.unwrap_or(Ok(())).and(written);
                    }
                }
            }
            Walked::Unsettled { gap } => {
                position = position.wrapping_add(gap as u64);
                pending.pass(gap);
                if let Some(outcome) = ended {
                    printer.end(&mut text, position);
                    return outcome.and(write_out(rt, &mut text));
                }
                write_out(rt, &mut text)?;
                ended = read_on(rt, &mut pending);
            }
        }
    }
    ended.unwrap_or(Ok(()))
}

// ---- the programs over messages
//
// Each answers the error of the read or the write that failed, and no other: a line on standard error has said it, unless the reader has gone away.
// Nothing is lent to them but the runtime, so an error leaves nothing changed.

// The listing: a line a message, and the last with all bytes, all messages and all gap bytes.
pub fn listing(rt: &HostRuntime) -> io::Result<()>
    ensures { IfOk result (λ u. u ≡ tt) }
{
    print_recording(rt, &mut Listing::default(), b"at bytes form obs time\n")
}

// The rows for the people who compute the track.
pub fn rows(rt: &HostRuntime) -> io::Result<()>
    ensures { IfOk result (λ u. u ≡ tt) }
{
    let heading = b"at time form type sid cn0 condition range phase bits polarity rate lock\n";
    print_recording(rt, &mut Rows, heading)
}

// The word that a program is started with, and nothing else, as a number: one of more than 64 bytes is none.
fn started_with(rt: &HostRuntime) -> Option<u8> {
    let mut word = [0u8; 64];
    let length = rt.arg(1, &mut word).ok()?;
    if goes_on(rt) {
        return None;
    }
    argument::small_number(&word[..length])
}

// Whether there is a word behind that one.
fn goes_on(rt: &HostRuntime) -> bool {
    let mut word = [0u8; 1];
    !matches!(rt.arg(2, &mut word), Err(FillError::NotPresent))
}

// The breaks of lock in the messages of the TYPE that the program is started with.
pub fn breaks(rt: &HostRuntime) -> io::Result<()>
    ensures { IfOk result (λ u. u ≡ tt) }
{
    match started_with(rt) {
        Some(signal) => { print_recording(rt, &mut Breaks::new(signal), b"at sid time break\n") }
        None => {
            let _ = eprintln!(rt;
                "error: the argument has to be a TYPE, 0 to 255 in decimal digits"
            );
            Ok(())
        }
    }
}

// ---- the account

// Reads until the block is full or the input ends, well or not.
fn fill<const N: usize>(rt: &HostRuntime, pending: &mut Pending<N>) -> io::Result<()> {
    for _ in 0..N {
        if let Some(outcome) = read_on(rt, pending) {
            return outcome;
        }
    }
    Ok(())
}

// One byte more than fits is read, to see whether the recording is longer.
fn print_reasons(rt: &HostRuntime, text: &mut Text) -> io::Result<()> {
    let mut recording = Pending::<61441>::new();
    let filled = fill(rt, &mut recording);
    account::put_report(text, recording.bytes());
    filled.and(write_out(rt, text))
}

// Why each position of a short recording is or is not the first of a message. The text has room for 20 bytes a line and the heading, which no recording
// needs more of (promises/proofs/Room.antt). It answers an error as the programs over messages do.
pub fn reasons(rt: &HostRuntime) -> io::Result<()>
    ensures { IfOk result (λ u. u ≡ tt) }
{
    let mut block = Block::<1228816>::new();
    print_reasons(rt, &mut Text::new(block.bytes()))
}

// ---- how a program ends

// Says on standard error what failed and why, in the system's words: a line that begins with `error: `.
pub fn say_failure(rt: &HostRuntime, what: &str, error: &io::Error)
    ensures { result ≡ tt }
{
    failure::say(rt, what, error);
}

// The exit status of a program whose run ended so: 0, or 141 where its reader has gone away, or 1.
#[tactic(auto, unfolding(crate::specs::Ends::status_of, crate::specs::Ends::status_by))]
pub fn status(ended: io::Result<()>) -> u8
    ensures { result ≡ status_of ended }
{
    match ended {
        Ok(()) => 0,
        Err(error) => match error.kind() {
            ErrorKind::BrokenPipe => READER_GONE,
            _ => FAILED,
        },
    }
}

// The account of a short recording: the reason of each position, a line each, put into a `Text`.
#![tactic(auto)]

ghost use Rattle.std.specs.Prelude.{◌≡◌, ◌+◌, ◌-◌, ◌<◌, Ok};
ghost use Rattle.text.specs.Put.{appended};
ghost use Rattle.account.specs.Account.{said_text, reason_text, lines_of, account_text, report_text};
ghost use Rattle.account.specs.Steps.{span_of, inside_of};

use reason::Reason;
use refusal::Refusal;
use text::Text;

// ---- a line

#[tactic(auto, using(text::proofs::PutLaws::appended_twice))]
fn put_residue(text: &mut Text, residue: u8)
    ensures { text.new ≡ appended (said_text (Ok (Reason.Checksum residue))) text.old }
{
    text.put_all(b"checksum ");
    text.put_hex(residue as u64, 2);
    text.put(b'\n');
}

// The reason and its value.
fn put_said(text: &mut Text, reason: Result<Reason, Refusal>)
    ensures { text.new ≡ appended (said_text reason) text.old }
{
    match reason {
        Err(refusal) => text.put_count(b"refused ", refusal::number(refusal), b'\n'),
        Ok(Reason::Inside(start)) => text.put_count(b"inside ", start as u64, b'\n'),
        Ok(Reason::Given(length)) => text.put_count(b"given ", length as u64, b'\n'),
        Ok(Reason::Sync(byte)) => text.put_count(b"sync ", byte as u64, b'\n'),
        Ok(Reason::CutUnknown) => text.put_all(b"short -\n"),
        Ok(Reason::CutShort(missing)) => text.put_count(b"short ", missing as u64, b'\n'),
        Ok(Reason::Checksum(residue)) => put_residue(text, residue),
    }
}

// The line of a position.
#[tactic(auto, using(text::proofs::PutLaws::appended_twice))]
fn put_reason(text: &mut Text, position: u64, reason: Result<Reason, Refusal>)
    ensures { text.new ≡ appended (reason_text position reason) text.old }
{
    text.put_number(position, b' ');
    put_said(text, reason);
}

// ---- all lines

// How far the next position lies that no message covers.
fn span(reason: Result<Reason, Refusal>) -> usize
    ensures { result ≡ span_of reason }
{
    let Ok(Reason::Given(length)) = reason else {
        return 1;
    };
    length
}

// The lines of the positions inside a given message, from behind its first byte up to its end.
#[tactic(auto, using(crate::proofs::Lines::inside_none, crate::proofs::Lines::inside_more))]
fn put_inside(text: &mut Text, start: usize, end: usize)
    requires { start < end }
    ensures { text.new ≡ appended (lines_of (inside_of start) (start + 1) (end - (start + 1))) text.old }
{
    for position in start + 1..end {
        put_reason(text, position as u64, Ok(Reason::Inside(start)));
    }
}

// The lines of every position, in one passage over the recording.
fn put_account(text: &mut Text, recording: &[u8])
    ensures { text.new ≡ appended (account_text recording.now) text.old }
{
    let mut position = 0;
    // A message passes over many positions at once, so this is no `for`.
    while position < recording.len() {
        let reason = reason::reason_here(&recording[position..]);
        let end = position + span(reason);
        put_reason(text, position as u64, reason);
        put_inside(text, position, end);
        position = end;
    }
}

// All that is said of a recording: a heading and its lines, or that it is longer than an account may be.
pub fn put_report(text: &mut Text, recording: &[u8])
    ensures { text.new ≡ appended (report_text recording.now) text.old }
{
    if recording.len() > 61440 {
        text.put_all(b"longer than 61440 bytes\n");
        return;
    }
    text.put_all(b"at reason value\n");
    put_account(text, recording);
}

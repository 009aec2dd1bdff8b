// The division of a recording: the walk over its positions, the plain reader and its companion.
#![tactic(auto)]

ghost use Rattle.std.specs.Prelude.{◌≡◌, ℕ, ◌+◌, ◌<◌, ◌≤◌, false, length};
ghost use Rattle.division.specs.Walk.{whole_walk};
ghost use Rattle.division.specs.Plain.{next_of, place_of, bytes_in};
ghost use Rattle.division.specs.Steps.{NoStart, Skipped, Stepped};

use front::Claim;
use refusal::Refusal;

// Where a walk stops: at a message, with the gap bytes before it, its length and how many of the first bytes settled it;
// or at the first position that is not settled, or the end, with the gap bytes before.
#[derive(Clone, Copy, Debug, PartialEq, Eq)]
pub enum Walked {
    Message {
        gap: usize,
        length: usize,
        reach: usize,
    },
    Unsettled {
        gap: usize,
    },
}

// Where a walk stops, and the bytes that it ran through the checksum, as far as 64 bits hold their number.
#[derive(Clone, Copy, Debug, PartialEq, Eq)]
pub struct Passage {
    pub walked: Walked,
    pub summed: usize,
}

// What the plain reader comes to: a message with its position in the whole slice, its length and the gap bytes before it; or the end with the gap bytes
// left.
#[derive(Clone, Copy, Debug, PartialEq, Eq)]
pub enum Next {
    Message {
        position: usize,
        length: usize,
        gap: usize,
    },
    End {
        gap: usize,
    },
}

// What a position is: gap, as all are up to `next`; one that wants bytes which are not here; or the first of a message. With how many of the first bytes
// settled it and what came before, and the bytes run through the checksum for it.
#[derive(Clone, Copy)]
enum Step {
    Gap {
        next: usize,
        reach: usize,
        summed: usize,
    },
    Wants,
    Message {
        length: usize,
        reach: usize,
        summed: usize,
    },
}

// ---- over bytes that begin no sync string

// Whether MA stands at one of the 64 places from `at` on. The loop has no way out, and `&` no branch, so that it is done in vectors: a find that stops at
// each M is half as fast.
fn has_start(bytes: &[u8], at: usize) -> bool
    requires { at + 65 ≤ length bytes.now }
    ensures { result ≡ false → (i : ℕ) → i < 64 → NoStart bytes.now (at + i) }
{
    let mut found = false;
    for i in 0..64 {
        found |= (bytes[at + i] == b'M') & (bytes[at + i + 1] == b'A');
    }
    found
}

// Whether the bytes at i do not contradict MA.
fn may_start(bytes: &[u8], i: usize) -> bool
    requires { i < length bytes.now }
    ensures { result ≡ false → NoStart bytes.now i }
{
    bytes[i] == b'M' && (i + 1 == bytes.len() || bytes[i + 1] == b'A')
}

// Whole blocks with no start in them.
fn skip_blocks(bytes: &[u8], from: usize) -> usize
    requires { from ≤ length bytes.now }
    ensures { Skipped bytes.now from result }
{
    let mut i = from;
    // A block is 64 places and the byte behind them, which the next block begins with: no iterator has such chunks.
    while 65 <= bytes.len() - i && !has_start(bytes, i) {
        i += 64;
    }
    i
}

// The first place from `from` on where a sync string may start, or the end.
fn next_start(bytes: &[u8], from: usize) -> usize
    requires { from ≤ length bytes.now }
    ensures { Skipped bytes.now from result }
{
    let first = skip_blocks(bytes, from);
    for i in first..bytes.len() {
        if may_start(bytes, i) {
            return i;
        }
    }
    bytes.len()
}

// ---- the walk

// One position, where `reach` of the first bytes settled those before it.
fn settle(bytes: &[u8], at: usize, reach: usize) -> Step
    requires { at < length bytes.now }
    ensures { Stepped bytes.now at reach result }
{
    match front::claims(&bytes[at..]) {
        Claim::Nothing => Step::Gap {
            next: next_start(bytes, at + 1),
            reach,
            summed: 0,
        },
        Claim::AtLeast(_) => Step::Wants,
        Claim::Long(length) if bytes.len() - at < length => Step::Wants,
        Claim::Long(length) => {
            let end = at + length;
            let reach = reach.max(end);
            let agreement = macm::agreeing(&bytes[at..end]);
            let summed = agreement.summed;
            if agreement.agrees {
                return Step::Message {
                    length,
                    reach,
                    summed,
                };
            }
            Step::Gap {
                next: at + 1,
                reach,
                summed,
            }
        }
    }
}

// The positions in turn, to the first message or to the first that is not settled. `ended` says whether the stream ends behind the bytes: the definition of
// a walk is by it.
pub fn walk(ended: bool, bytes: &[u8]) -> Passage
    ensures { result ≡ whole_walk ended bytes.now }
{
    let mut at = 0;
    let mut reach = 0;
    let mut summed: usize = 0;
    // A position may pass over many, so this is no `for`.
    while at < bytes.len() {
        match settle(bytes, at, reach) {
            Step::Gap {
                next,
                reach: needed,
                summed: more,
            } => {
                at = next;
                reach = needed;
                summed = summed.wrapping_add(more);
            }
            // None will come.
            Step::Wants if ended => at += 1,
            Step::Wants => break,
            Step::Message {
                length,
                reach,
                summed: more,
            } => {
                return Passage {
                    walked: Walked::Message {
                        gap: at,
                        length,
                        reach,
                    },
                    summed: summed.wrapping_add(more),
                };
            }
        }
    }
    Passage {
        walked: Walked::Unsettled { gap: at },
        summed,
    }
}

// ---- the plain reader

// The next message of a recording, from a start on (12).
pub fn next_message(recording: &[u8], start: usize) -> Result<Next, Refusal>
    ensures { result ≡ next_of recording.now start }
{
    if recording.len() < start {
        return Err(Refusal::PastEnd);
    }
    Ok(match walk(true, &recording[start..]).walked {
        Walked::Message { gap, length, .. } => Next::Message {
            position: start + gap,
            length,
            gap,
        },
        Walked::Unsettled { gap } => Next::End { gap },
    })
}

// That message as the part of the recording where it stands: the empty part where there is none.
pub fn message_part(recording: &[u8], start: usize) -> &[u8]
    ensures { (result.ref_ptr.0 ≡ recording.entry.ref_ptr.0)
        × (result.ref_ptr.1 ≡ recording.entry.ref_ptr.1 + place_of (next_of recording.now start))
        × (result.now ≡ bytes_in recording.now (next_of recording.now start)) }
{
    match next_message(recording, start) {
        Ok(
            Next::Message {
                position,
                length,
                ..
            },
        ) => {
            let end = position + length;
            &recording[position..end]
        }
        Ok(Next::End { .. }) | Err(_) => &recording[..0],
    }
}

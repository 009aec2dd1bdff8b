// Why a position of a recording is the first byte of a message that is given, or is not.
#![tactic(auto)]

ghost use Rattle.std.specs.Prelude.{◌≡◌, ◌≤◌, length};
ghost use Rattle.reason.specs.Reason.{wrong_at, residue_of, summed, here_of, cover_of, reason_of};

use division::Next;
use front::Claim;
use refusal::Refusal;

// Inside the given message that begins at a position; given, with so many bytes; byte k of the sync, counted from 1, is the first that fits neither form;
// cut short before the count byte, or by so many bytes; the checksum is off, with the residue.
#[derive(Clone, Copy, Debug, PartialEq, Eq)]
pub enum Reason {
    Inside(usize),
    Given(usize),
    Sync(usize),
    CutUnknown,
    CutShort(usize),
    Checksum(u8),
}

// ---- at the first of some bytes, which no message covers

// The first byte that fits neither sync string, where neither begins the bytes.
#[tactic(auto, using(division::proofs::WalkSteps::furthest))]
fn wrong_at(bytes: &[u8]) -> usize
    ensures { result ≡ wrong_at bytes.now }
{
    let new = octets::common_to(&macm::NEW_SYNC, bytes);
    let old = octets::common_to(&macm::OLD_SYNC, bytes);
    new.max(old) + 1
}

// All bytes of a claimed message are here. The last one stands apart, so that the others are summed in vectors.
fn sum(bytes: &[u8], n: usize) -> Reason
    requires { (5 ≤ n) × (n ≤ length bytes.now) }
    ensures { result ≡ summed n (residue_of n bytes.now) }
{
    let last = n - 1;
    let sum = octets::checksum(&bytes[4..last]);
    let residue = sum.value ^ bytes[last];
    if residue == 0 {
        return Reason::Given(n);
    }
    Reason::Checksum(residue)
}

// Of the first of these bytes, which no message covers (12 where there is none).
#[tactic(auto, unfolding(crate::specs::Reason::here_of, crate::specs::Reason::said_by))]
pub fn reason_here(bytes: &[u8]) -> Result<Reason, Refusal>
    ensures { result ≡ here_of bytes.now }
{
    if bytes.is_empty() {
        return Err(Refusal::PastEnd);
    }
    Ok(match front::claims(bytes) {
        Claim::Nothing => Reason::Sync(wrong_at(bytes)),
        Claim::AtLeast(_) => Reason::CutUnknown,
        Claim::Long(n) if bytes.len() < n => Reason::CutShort(n - bytes.len()),
        Claim::Long(n) => sum(bytes, n),
    })
}

// ---- at a position of a recording

// Where the given message begins that covers a position, or the position itself where none does.
fn cover(recording: &[u8], position: usize) -> usize
    requires { position ≤ length recording.now }
    ensures { result ≡ cover_of recording.now position }
{
    let mut at = 0;
    // A message may end behind the position, or at it, so this is no `for`: the walk goes no further than it has to.
    while at < position {
        match division::next_message(recording, at) {
            Ok(
                Next::Message {
                    position: start,
                    length,
                    ..
                },
            ) => {
                let end = start + length;
                if position < end {
                    return start.min(position);
                }
                at = end;
            }
            Ok(Next::End { .. }) => return position,
            Err(_) => return position,
        }
    }
    position
}

// The reason at a position (12).
#[tactic(auto, unfolding(crate::specs::Reason::reason_of))]
pub fn reason_at(recording: &[u8], position: usize) -> Result<Reason, Refusal>
    ensures { result ≡ reason_of recording.now position }
{
    if recording.len() <= position {
        return Err(Refusal::PastEnd);
    }
    let start = cover(recording, position);
    if start < position {
        return Ok(Reason::Inside(start));
    }
    reason_here(&recording[position..])
}

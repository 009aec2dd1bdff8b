// Where lock broke: the messages of a recording go in one a call, and of those of one TYPE the breaks come out. A history is lent words: TYPE, then for
// each SID whether it was seen, its last time and its last lock count. The list is lent too, three numbers for each break. A refusal changes neither.
// C lends the two apart at each call, and so no struct holds both.
#![tactic(auto)]

ghost use Rattle.std.specs.Prelude.{◌≡◌, [], ◌∷◌, ◌+◌, ◌*◌, ◌≤◌, length};
ghost use Rattle.history.specs.Words.{history_words, last_from, fresh_words};
ghost use Rattle.history.specs.Appearances.{is_of};
ghost use Rattle.history.specs.Breaks.{number_of, said_of};
ghost use Rattle.history.specs.Calls.{list_numbers, Leaves, next_call, claimed_call};
ghost use Rattle.history.specs.Steps.{Takes, appearances_of, call_of};

use macm::{Claimed, Form};
use refusal::Refusal;

// The words of a history, and the numbers of a list that has room for the breaks of every message.
pub const WORDS: usize = 769;

pub const NUMBERS: usize = 765;

// Which of the two breaks, by its number in the list.
#[derive(Clone, Copy, Debug, PartialEq, Eq)]
pub enum Break {
    ClockBack = 1,
    NewLock = 2,
}

impl Break {
    fn number(self) -> u64
        ensures { result ≡ number_of self }
    {
        self as u64
    }
}

// An observation as a history takes it: its SID, the time of its message and its lock count.
#[derive(Clone, Copy)]
pub struct Appearance {
    pub sid: u8,
    pub time: u32,
    pub lock: u32,
}

// What a history has of a SID: whether it was seen, which is any word but 0, and its last time and lock count. Words as they are lent, so no Option.
#[derive(Clone, Copy)]
pub struct Last {
    pub seen: u64,
    pub time: u64,
    pub lock: u64,
}

// ---- the words

// A history in which nothing was seen, for one TYPE.
pub fn fresh(history: &mut [u64; WORDS], signal: u8)
    ensures { history.new ≡ fresh_words signal }
{
    *history = [0; WORDS];
    history[0] = signal as u64;
}

// What is kept in the three words of a SID.
fn last_of(row: &[u64]) -> Last
    requires { 3 ≤ length row.now }
    ensures { result ≡ last_from row.now 0 }
{
    Last {
        seen: row[0],
        time: row[1],
        lock: row[2],
    }
}

// Three numbers in place of a row's. One by one: a copy of a slice first asks whether the two overlap, and an observation takes a third longer.
fn put_three(row: &mut [u64], first: u64, second: u64, third: u64)
    requires { length row.old ≡ 3 }
    ensures { row.new ≡ first ∷ second ∷ third ∷ [] }
{
    row[0] = first;
    row[1] = second;
    row[2] = third;
}

// ---- one appearance

// What is said of a SID that appears with this time and lock count.
fn said_of(last: Last, time: u64, lock: u64) -> Option<Break>
    ensures { result ≡ said_of last time lock }
{
    if last.seen == 0 {
        return None;
    }
    if time < last.time {
        return Some(Break::ClockBack);
    }
    if lock < last.lock {
        return Some(Break::NewLock);
    }
    None
}

// One appearance, where so many breaks are listed: the SID's last pair is replaced, whatever is said of it.
fn appear(history: &mut [u64], list: &mut [u64], count: usize, appearance: Appearance) -> usize
    requires { (length history.old ≡ history_words) × (3 * count + 3 ≤ length list.old) }
    ensures { Takes history.old list.old count (appearance ∷ []) result history.new list.new }
{
    let sid = appearance.sid;
    let time = appearance.time as u64;
    let lock = appearance.lock as u64;
    let at = 1 + 3 * sid as usize;
    let row = &mut history[at..at + 3];
    let last = last_of(row);
    put_three(row, 1, time, lock);
    let Some(which) = said_of(last, time, lock) else {
        return count;
    };
    let end = 3 * count;
    put_three(&mut list[end..end + 3], sid as u64, time, which.number());
    count + 1
}

// ---- one message

// All observations of a message, in order.
fn appear_all(history: &mut [u64], list: &mut [u64], claimed: &Claimed) -> usize
    requires { (length history.old ≡ history_words) × (list_numbers ≤ length list.old) }
    ensures { Takes history.old list.old 0 (appearances_of claimed.now) result history.new list.new }
{
    let time = claimed.header().time;
    let mut listed = 0;
    for observation in claimed.observations() {
        let appearance = Appearance {
            sid: observation.sid,
            time,
            lock: observation.lock.count(),
        };
        listed = appear(history, list, listed, appearance);
    }
    listed
}

// Whether a message is of the new form with the TYPE of the history.
fn is_of(signal: u64, form: Form) -> bool
    ensures { result ≡ is_of signal form }
{
    match form {
        Form::New { signal: other, .. } => other as u64 == signal,
        Form::Old { .. } => false,
    }
}

// The breaks of a message that is checked, or claimed: the list is looked at before TYPE.
#[tactic(auto, using(crate::proofs::CallSteps::call_without_room, crate::proofs::CallSteps::call_passes_over), unfolding(macm::specs::Read::header_of))]
fn list_breaks(history: &mut [u64], list: &mut [u64], claimed: &Claimed) -> Result<usize, Refusal>
    requires { length history.old ≡ history_words }
    ensures { Leaves (call_of claimed.now history.old list.old) result history.new list.new }
{
    if list.len() < NUMBERS {
        return Err(Refusal::SmallBuffer);
    }
    if !is_of(history[0], claimed.form()) {
        return Ok(0);
    }
    Ok(appear_all(history, list, claimed))
}

// The breaks of exactly a message's bytes: how many stand at the front of the list (1 to 4, then 8).
#[tactic(auto, unfolding(crate::specs::Calls::call_by, macm::specs::Read::head_of, macm::specs::Read::head_by, macm::specs::Claimed::claimed_by))]
pub fn next_breaks(
    message: &[u8],
    history: &mut [u64; WORDS],
    list: &mut [u64],
) -> Result<usize, Refusal>
    ensures { Leaves (next_call message.now history.old list.old) result history.new list.new }
{
    let claimed = Claimed::checked(message)?;
    list_breaks(history, list, &claimed)
}

// The same of bytes that the division gave as a message (1 to 3, then 8): their checksum is not run again. Two names, since a host calls the other.
#[tactic(auto, unfolding(crate::specs::Calls::call_by, macm::specs::Read::claimed_head, macm::specs::Read::head_by, macm::specs::Claimed::claimed_by))]
pub fn claimed_breaks(
    message: &[u8],
    history: &mut [u64; WORDS],
    list: &mut [u64],
) -> Result<usize, Refusal>
    ensures { Leaves (claimed_call message.now history.old list.old) result history.new list.new }
{
    let claimed = Claimed::of(message)?;
    list_breaks(history, list, &claimed)
}

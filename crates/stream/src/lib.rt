// The stream reader: pieces of a recording go in, one message a call comes out. The state goes in by value and comes back; the window, which holds
// the bytes that a cut left over, and the output are lent, each by itself, as C lends them.
#![tactic(auto)]

ghost use Rattle.std.specs.Prelude.{◌≡◌, true, false, [], ◌++◌, ◌+◌, ◌-◌, ◌^◌, ◌<◌, ◌≤◌, length, take, drop, replicate};
ghost use Rattle.std.proofs.Math.Seq.{paste};
ghost use Rattle.octets.specs.Parts.{over};
ghost use Rattle.front.specs.Look.{need};
ghost use Rattle.stream.specs.Feed.{feed};
ghost use Rattle.stream.specs.Reader.{fresh_state, bad, checked, feed_checked, feed_call, finish_call, Leaves};
ghost use Rattle.stream.specs.Steps.{Pulled, CameTo, Tested, Begun, Divided, reply_after};

use division::Walked;
use front::Claim;
use refusal::Refusal;

// The bytes held in the window, the gap bytes before them, all bytes taken, whether the end was announced (0, or anything else), and all bytes
// run through the checksum.
#[repr(C)]
#[derive(Clone, Copy, Debug, PartialEq, Eq)]
pub struct State {
    pub held: u64,
    pub gap: u64,
    pub total: u64,
    pub ended: u64,
    pub summed: u64,
}

// All of the piece is taken and more is needed; a message with its length, the gap before it and the bytes taken; the end with its gap.
#[derive(Clone, Copy, Debug, PartialEq, Eq)]
pub enum Answer {
    NeedsMore,
    Message { length: u64, gap: u64, taken: u64 },
    End { gap: u64 },
}

#[derive(Clone, Copy, Debug, PartialEq, Eq)]
pub struct Reply {
    pub answer: Result<Answer, Refusal>,
    pub state: State,
}

// What a call comes to: a message with its length, or none; then the gap bytes, the bytes of the piece taken, and the bytes held at the front of
// the window after it. The gap is the answer's with a message and the state's without one, so the cases are whole.
#[derive(Clone, Copy)]
enum Outcome {
    Message {
        length: usize,
        gap: usize,
        taken: usize,
        held: usize,
    },
    Nothing {
        gap: usize,
        taken: usize,
        held: usize,
    },
}

// With the bytes that the call ran through the checksum.
#[derive(Clone, Copy)]
struct Counted {
    outcome: Outcome,
    summed: usize,
}

// ---- what is refused

impl State {
    // A state that no call leaves, or whose count of bytes summed is past its limit.
    fn is_bad(self) -> bool
        ensures { result ≡ bad self.held self.gap self.total self.summed }
    {
        if 6136 < self.held || 281474976710656 < self.total || 1152921504606846976 < self.summed {
            return true;
        }
        self.total < self.gap || self.total - self.gap < self.held
    }
}

// 8 and 9 in rising order.
#[tactic(auto, unfolding(crate::specs::Reader::checked))]
fn check(state: State, window: usize, output: usize) -> Result<(), Refusal>
    ensures { result ≡ checked state window output }
{
    if window < 6136 || output < 6136 {
        return Err(Refusal::SmallBuffer);
    }
    if state.is_bad() {
        return Err(Refusal::BadState);
    }
    Ok(())
}

// 10 and 11 behind them, of a feed.
#[tactic(auto, unfolding(crate::specs::Reader::feed_checked, crate::specs::Reader::feed_checked_by))]
fn check_feed(state: State, window: usize, output: usize, piece: usize) -> Result<(), Refusal>
    ensures { result ≡ feed_checked state window output piece }
{
    check(state, window, output)?;
    if state.ended != 0 {
        return Err(Refusal::Ended);
    }
    if 281474976710656 - state.total < piece as u64 {
        return Err(Refusal::TooMuch);
    }
    Ok(())
}

// ---- bytes that move

// The bytes, over the front of the buffer.
fn put(bytes: &[u8], buffer: &mut [u8])
    requires { length bytes.now ≤ length buffer.old }
    ensures { buffer.new ≡ over bytes.now buffer.old }
{
    octets::copy(bytes, buffer);
}

// The n bytes from index `from` on, to the front of the window. Where they stand there, no byte is touched. A loop for the reason that `octets::copy` is one.
fn shift(window: &mut [u8], from: usize, n: usize)
    requires { from + n ≤ length window.old }
    ensures { window.new ≡ paste window.old 0 (drop from window.old) n }
{
    if from != 0 {
        for i in 0..n {
            window[i] = window[from + i];
        }
    }
}

// ---- a feed

// How many bytes of a piece an unsettled position takes: as many as have to be here before more can be said of it, or all.
fn wanted(held: &[u8], piece: usize) -> usize
    requires { length held.now < need held.now }
    ensures { (length held.now + result ≤ need held.now) × (result ≤ piece) × (result ≡ 0 → piece ≡ 0) }
{
    if piece == 0 {
        return 0;
    }
    match front::claims(held) {
        Claim::Nothing => 0,
        Claim::AtLeast(n) => piece.min(n - held.len()),
        Claim::Long(n) => piece.min(n - held.len()),
    }
}

// The n bytes from an unsettled position on go to the front of the window, and the bytes of the piece that they want behind them: so many.
fn pull(from: usize, n: usize, taken: usize, piece: &[u8], window: &mut [u8]) -> usize
    requires { (from + n ≤ length window.old) × (6136 ≤ length window.old) × (n < need (take n (drop from window.old))) × (taken ≤ length piece.now) }
    ensures { Pulled n (take n (drop from window.old)) window.old (drop taken piece.now) result window.new }
{
    shift(window, from, n);
    let more = wanted(&window[..n], piece.len() - taken);
    let end = taken + more;
    put(&piece[taken..end], &mut window[n..]);
    more
}

// The message of `size` bytes at `at` goes to the output, and the bytes held behind it to the window's front; answers how many these are.
fn hand_over(at: usize, size: usize, held: usize, window: &mut [u8], output: &mut [u8]) -> usize
    requires { (at + size ≤ held) × (held ≤ length window.old) × (held < 2 ^ 64) × (size ≤ length output.old) }
    ensures { (result ≡ held - (at + size)) × (output.new ≡ over (take size (drop at window.old)) output.old) × (window.new ≡ paste window.old 0 (drop (at + size) window.old) (held - (at + size))) }
{
    let end = at + size;
    let left = held - end;
    put(&window[at..end], output);
    shift(window, end, left);
    left
}

// The rest of a feed once `taken` bytes of the piece are taken, nothing is held and `gap` bytes stand before: the piece is divided where it stands.
fn in_place(gap: usize, taken: usize, piece: &[u8], window: &mut [u8], output: &mut [u8]) -> Counted
    requires { (taken ≤ length piece.now) × (6136 ≤ length window.old) × (6136 ≤ length output.old) × (gap + length piece.now ≤ 2 ^ 49) }
    ensures { CameTo (feed [] gap (drop taken piece.now)) piece.now window.old output.old result.outcome window.new output.new
        × Tested gap (drop taken piece.now) result.outcome result.summed }
{
    let rest = &piece[taken..];
    let passage = division::walk(false, rest);
    let summed = passage.summed;
    match passage.walked {
        Walked::Message {
            gap: at,
            length,
            reach,
        } => {
            let end = at + length;
            put(&rest[at..end], output);
            put(&rest[end..reach], window);
            Counted {
                outcome: Outcome::Message {
                    length,
                    gap: gap + at,
                    taken: taken + reach,
                    held: reach - end,
                },
                summed,
            }
        }
        Walked::Unsettled { gap: at } => {
            put(&rest[at..], window);
            Counted {
                outcome: Outcome::Nothing {
                    gap: gap + at,
                    taken: piece.len(),
                    held: rest.len() - at,
                },
                summed,
            }
        }
    }
}

// Turn after turn over the held bytes, until a message is settled, all of the piece is taken, or no byte is held and the piece can be divided. How far a
// turn comes is what the walk says and the piece has, so the loop is no `for`.
fn turns(
    mut held: usize,
    mut gap: usize,
    piece: &[u8],
    window: &mut [u8],
    output: &mut [u8],
) -> Counted
    requires { Begun held gap piece.now window.old output.old }
    ensures { Divided false held gap piece.now window.old output.old result window.new output.new }
{
    let (mut taken, mut summed) = (0, 0);
    loop {
        let passage = division::walk(false, &window[..held]);
        summed += passage.summed;
        match passage.walked {
            Walked::Message {
                gap: at,
                length,
                ..
            } => {
                let left = hand_over(at, length, held, window, output);
                let outcome = Outcome::Message {
                    length,
                    gap: gap + at,
                    taken,
                    held: left,
                };
                return Counted { outcome, summed };
            }
            Walked::Unsettled { gap: at } => {
                held -= at;
                gap += at;
                if held == 0 {
                    let mut rest = in_place(gap, taken, piece, window, output);
                    rest.summed = summed + rest.summed;
                    return rest;
                }
                let more = pull(at, held, taken, piece, window);
                if more == 0 {
                    let outcome = Outcome::Nothing { gap, taken, held };
                    return Counted { outcome, summed };
                }
                held += more;
                taken += more;
            }
        }
    }
}

// A feed, from the bytes held on: where there are none, the piece is divided at once.
fn divide(state: State, piece: &[u8], window: &mut [u8], output: &mut [u8]) -> Counted
    requires { Begun state.held state.gap piece.now window.old output.old }
    ensures { Divided false state.held state.gap piece.now window.old output.old result window.new output.new }
{
    let held = state.held as usize;
    let gap = state.gap as usize;
    if held == 0 {
        return in_place(gap, 0, piece, window, output);
    }
    turns(held, gap, piece, window, output)
}

// ---- the end of the stream

// A finish, over the bytes held: none of them is left where no message is.
fn divide_rest(state: State, window: &mut [u8], output: &mut [u8]) -> Counted
    requires { Begun state.held state.gap [] window.old output.old }
    ensures { Divided true state.held state.gap [] window.old output.old result window.new output.new }
{
    let held = state.held as usize;
    let gap = state.gap as usize;
    let passage = division::walk(true, &window[..held]);
    let summed = passage.summed;
    match passage.walked {
        Walked::Message {
            gap: at,
            length,
            ..
        } => Counted {
            outcome: Outcome::Message {
                length,
                gap: gap + at,
                taken: 0,
                held: hand_over(at, length, held, window, output),
            },
            summed,
        },
        Walked::Unsettled { gap: at } => Counted {
            outcome: Outcome::Nothing {
                gap: gap + at,
                taken: 0,
                held: held - at,
            },
            summed,
        },
    }
}

// ---- replies

// What the call took and summed is added to the state's counts; after a message no gap stands before the bytes held. `ended` is a word of the state, and says
// what no message means.
fn reply_of(state: State, ended: bool, counted: Counted) -> Reply
    requires { (state.summed + counted.summed < 2 ^ 64) × ((reply_after state ended counted).state.total < 2 ^ 64) }
    ensures { result ≡ reply_after state ended counted }
{
    let summed = state.summed + counted.summed as u64;
    let (answer, gap, taken, held) = match counted.outcome {
        Outcome::Message {
            length,
            gap,
            taken,
            held,
        } => {
            let length = length as u64;
            let gap = gap as u64;
            let taken = taken as u64;
            (Answer::Message { length, gap, taken }, 0, taken, held)
        }
        Outcome::Nothing { gap, taken, held } => {
            let gap = gap as u64;
            let answer = if ended {
                Answer::End { gap }
            } else {
                Answer::NeedsMore
            };
            (answer, gap, taken as u64, held)
        }
    };
    Reply {
        answer: Ok(answer),
        state: State {
            held: held as u64,
            gap,
            total: state.total + taken,
            ended: ended as u64,
            summed,
        },
    }
}

// The reply, and zeros behind the bytes held.
fn conclude(state: State, ended: bool, counted: Counted, window: &mut [u8]) -> Reply
    requires { (state.summed + counted.summed < 2 ^ 64) × ((reply_after state ended counted).state.total < 2 ^ 64) × ((reply_after state ended counted).state.held ≤ length window.old) }
    ensures { (result ≡ reply_after state ended counted) × (window.new ≡ take result.state.held window.old ++ replicate (length window.old - result.state.held) 0) }
{
    let reply = reply_of(state, ended, counted);
    let left = reply.state.held as usize;
    window[left..].fill(0);
    reply
}

// ---- the calls

// The fewest bytes of the piece that settle the next message, or all of it (8, 9, 10, 11).
pub fn feed(state: State, piece: &[u8], window: &mut [u8], output: &mut [u8]) -> Reply
    ensures { Leaves (feed_call state piece.now window.old output.old) result window.new output.new }
{
    match check_feed(state, window.len(), output.len(), piece.len()) {
        Err(refusal) => Reply {
            answer: Err(refusal),
            state,
        },
        Ok(()) => {
            let counted = divide(state, piece, window, output);
            conclude(state, false, counted, window)
        }
    }
}

// The end of the stream: the remaining messages one a call, then the end, the same each time after (8, 9). Its checks and its walk are not those of a
// feed, and C calls the two by name.
pub fn finish(state: State, window: &mut [u8], output: &mut [u8]) -> Reply
    ensures { Leaves (finish_call state window.old output.old) result window.new output.new }
{
    match check(state, window.len(), output.len()) {
        Err(refusal) => Reply {
            answer: Err(refusal),
            state,
        },
        Ok(()) => {
            let counted = divide_rest(state, window, output);
            conclude(state, true, counted, window)
        }
    }
}

// The state before the first byte.
pub fn fresh() -> State
    ensures { result ≡ fresh_state }
{
    State {
        held: 0,
        gap: 0,
        total: 0,
        ended: 0,
        summed: 0,
    }
}

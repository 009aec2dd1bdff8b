// The recording as it comes in: what has come and is not divided yet.
ghost use Rattle.std.specs.Prelude.{◌≡◌, ◌-◌, ◌<◌, ◌≤◌, ℕ, List, [], ◌++◌, length, take, drop, IfOk, OnErr};
ghost use Rattle.std.specs.Io.KnownBytes.{Keeps, Consumes, IsAtEnd};

use crate::blocks;
use std::io;
use std::io::Read;
use std::marker::Model;

// Bytes that stand somewhere in a block of N, with what was divided before them and what is yet to be read behind.
#[derive(Drop)]
pub(crate) struct Pending<const N: usize> {
    block: [u8; N],
    from: usize,
    end: usize,
}

impl<const N: usize> Model for Pending<N> {
    ghost Value = { List ℕ };

    ghost view = { λ p. drop p.from (take p.end p.block) };

    ghost invariant = { λ p. (p.from ≤ p.end) × (p.end ≤ N) };
}

impl<const N: usize> Pending<N> {
    pub(crate) fn new() -> Self
        ensures { result ≡ [] }
    {
        Pending {
            block: [0; N],
            from: 0,
            end: 0,
        }
    }

    pub(crate) fn bytes(&self) -> &[u8]
        ensures { result.now ≡ self.now }
    {
        let block = &self.block[..];
        &block[self.from..self.end]
    }

    // The first `count` are divided.
    pub(crate) fn pass(&mut self, count: usize)
        requires { count ≤ length self.old }
        ensures { self.new ≡ drop count self.old }
    {
        self.from += count;
    }

    // The next bytes behind them, read once: how many, 0 at the end, or where the block is full.
    pub(crate) fn read<R: Read>(&mut self, reader: &mut R) -> io::Result<usize>
        ensures ok { IfOk result (λ n. (bs : List ℕ) × (length bs ≡ n) × (self.new ≡ self.old ++ bs) × Consumes (R.remaining reader.old) (R.remaining reader.new) bs) }
        ensures end { IfOk result (λ n. n ≡ 0 → length self.old < N → IsAtEnd (R.remaining reader.new)) }
        ensures err { OnErr result ((self.new ≡ self.old) × Keeps (R.remaining reader.old) (R.remaining reader.new)) }
    {
        let kept = keep(&mut self.block, self.from, self.end);
        self.from = 0;
        self.end = kept;
        let count = blocks::read_behind(reader, &mut self.block, kept)?;
        self.end += count;
        Ok(count)
    }
}

// The bytes from one place up to another, moved to the front: how many.
fn keep(block: &mut [u8], from: usize, end: usize) -> usize
    requires ordered { from ≤ end }
    requires fits { end ≤ length block.old }
    ensures count { result ≡ end - from }
    ensures front { take result block.new ≡ drop from (take end block.old) }
{
    if from > 0 {
        block.copy_within(from..end, 0);
    }
    end - from
}

// Blocks in and out: one read behind what was kept, and all of a text written.
// How often signals interrupt has no bound that anything states, and every loop has to end: the turns are counted up to a number that no run reaches.
ghost use Rattle.std.specs.Prelude.{◌≡◌, ◌+◌, ◌<◌, ◌≤◌, ℕ, length, take, drop, IfOk, OnOk, OnErr};
ghost use Rattle.std.specs.Io.KnownBytes.{Keeps, Appends, Consumes, IsAtEnd};

use std::io;
use std::io::{ErrorKind, Read, Write};

// A block of memory for a text. Its length is a parameter, since counting a large one out is more than the checker can.
#[derive(Drop)]
pub(crate) struct Block<const N: usize> {
    bytes: [u8; N],
}

impl<const N: usize> Block<N> {
    pub(crate) fn new() -> Self {
        Block { bytes: [0; N] }
    }

    pub(crate) fn bytes(&mut self) -> &mut [u8] {
        &mut self.bytes
    }
}

// The next bytes behind the first `kept` of the buffer, read once: how many, 0 at the end, or where the buffer has no room. A read that a signal
// interrupts is made again.
pub(crate) fn read_behind<R: Read>(
    reader: &mut R,
    buffer: &mut [u8],
    kept: usize,
) -> io::Result<usize>
    ensures front { take kept buffer.new ≡ take kept buffer.old }
    ensures fits { IfOk result (λ n. kept ≤ length buffer.old → kept + n ≤ length buffer.new) }
    ensures bytes { IfOk result (λ n. Consumes (R.remaining reader.old) (R.remaining reader.new) (take n (drop kept buffer.new))) }
    ensures end { IfOk result (λ n. n ≡ 0 → kept < length buffer.old → IsAtEnd (R.remaining reader.new)) }
    ensures err { OnErr result (Keeps (R.remaining reader.old) (R.remaining reader.new)) }
{
    if buffer.len() <= kept {
        return Ok(0);
    }
    read_some(reader, &mut buffer[kept..])
}

fn read_some<R: Read>(reader: &mut R, room: &mut [u8]) -> io::Result<usize>
    requires { 0 < length room.old }
    ensures fits { IfOk result (λ n. n ≤ length room.new) }
    ensures bytes { IfOk result (λ n. Consumes (R.remaining reader.old) (R.remaining reader.new) (take n room.new)) }
    ensures end { IfOk result (λ n. n ≡ 0 → IsAtEnd (R.remaining reader.new)) }
    ensures err { OnErr result (Keeps (R.remaining reader.old) (R.remaining reader.new)) }
{
    for _ in 0..u64::MAX {
        match reader.read(room) {
            Ok(count) => return Ok(count),
            Err(error) if error.kind() == ErrorKind::Interrupted => {}
            Err(error) => return Err(error),
        }
    }
    Err(io::Error::from(ErrorKind::Interrupted))
}

// Writes the text out.
pub(crate) fn write_out<W: Write>(writer: &mut W, text: &[u8]) -> io::Result<()>
    ensures ok { OnOk result (Appends (W.contents writer.old) (W.contents writer.new) text.now) }
    ensures err { OnErr result ((n : ℕ) × (n ≤ length text.now) × Appends (W.contents writer.old) (W.contents writer.new) (take n text.now)) }
{
    let mut put = 0;
    for _ in 0..u64::MAX {
        if put == text.len() {
            return Ok(());
        }
        match writer.write(&text[put..]) {
            Ok(0) => return Err(io::Error::from(ErrorKind::WriteZero)),
            Ok(count) => put += count,
            Err(error) if error.kind() == ErrorKind::Interrupted => {}
            Err(error) => return Err(error),
        }
    }
    Err(io::Error::from(ErrorKind::Interrupted))
}

ghost use Rattle.std.specs.Prelude.{◌≡◌, ◌↔◌, [], false, IsTrue, IsErr, IfOk, OnOk};
ghost use Rattle.std.specs.Io.{WritesAtMost};
ghost use Rattle.std.specs.Io.KnownBytes.{Keeps, WriteAppends, append_known};

use hj_base::Memory;
use std::alloc::Global;
use std::io;
use std::io::{BufWriter, ErrorKind, Write};

/// A writer that collects some kilobytes before it hands them on to another writer, each byte once and in order. Once
/// that one has refused some, every call fails, and nothing more is handed on.
pub struct Collected<W: Write + Drop> {
    buffered: BufWriter<W>,
    is_refused: bool,
}

impl<W: Write + Drop> Collected<W> {
    ghost use Rattle.hj_net.specs.Collected.{handed_on, has_refused, other_writer, taken, waiting};

    /// Makes a writer with nothing collected. No later call takes memory.
    pub fn new(alloc: Global, writer: W) -> Result<Collected<W>, Memory>
        ensures handed_on { IfOk result (λ c. handed_on W.contents c ≡ W.contents writer) }
        ensures waiting { IfOk result (λ c. waiting c ≡ []) }
        ensures open { IfOk result (λ c. has_refused c ≡ false) }
    {
        let buffered = BufWriter::new(alloc, writer).map_err(|_| Memory)?;
        Ok(Collected {
            buffered,
            is_refused: false,
        })
    }

    /// Hands on what waits, unless some was refused before. Returns the other writer, and the bytes that weren't handed
    /// on.
    fn close(self) -> (W, Vec<u8>)
        ensures bytes { Keeps (taken W.contents self) (append_known (W.contents result.0) result.1.items) }
        ensures refused { IsTrue (has_refused self)
            → (result.0 ≡ other_writer self) × (result.1.items ≡ waiting self) }
    {
        let Collected {
            mut buffered,
            is_refused,
        } = self;
        if !is_refused {
            let _ = buffered.flush();
        }
        buffered.into_parts()
    }

    /// Fails once some was refused.
    fn check_open(&self) -> io::Result<()>
        ensures { IsErr result ↔ IsTrue (has_refused self.now) }
    {
        if self.is_refused {
            return Err(io::Error::from(ErrorKind::BrokenPipe));
        }
        Ok(())
    }
}

impl<W: Write + Drop> Write for Collected<W> {
    ghost use Rattle.hj_net.specs.Collected.{has_refused, taken, waiting};

    ghost contents = { taken W.contents };

    /// Takes a prefix of the piece.
    fn write(&mut self, piece: &[u8]) -> io::Result<usize>
        ensures bound { WritesAtMost result piece.now }
        ensures bytes { WriteAppends (taken W.contents self.old) (taken W.contents self.new) result piece.now }
        ensures kept { IsTrue (has_refused self.new) ↔ IsErr result }
        ensures refused { IsTrue (has_refused self.old) → IsErr result × (self.new ≡ self.old) }
    {
        self.check_open()?;
        match self.buffered.write(piece) {
            Ok(count) => Ok(count),
            Err(error) => {
                self.is_refused = true;
                Err(error)
            }
        }
    }

    /// Hands on all that waits. If nothing does, the other writer isn't asked to write.
    fn flush(&mut self) -> io::Result<()>
        ensures bytes { Keeps (taken W.contents self.old) (taken W.contents self.new) }
        ensures all { OnOk result (waiting self.new ≡ []) }
        ensures kept { IsTrue (has_refused self.new) ↔ IsErr result }
        ensures refused { IsTrue (has_refused self.old) → IsErr result × (self.new ≡ self.old) }
    {
        self.check_open()?;
        let flushed = self.buffered.flush();
        self.is_refused = flushed.is_err();
        flushed
    }
}

impl<W: Write + Drop> Drop for Collected<W> {
    /// Hands on what waits, unless some was refused before.
    fn drop(self) {
        let (_writer, _waiting) = self.close();
    }
}

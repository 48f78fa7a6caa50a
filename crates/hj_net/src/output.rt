ghost use Rattle.std.specs.Prelude.{◌≡◌};

use crate::Collected;
use hj_base::Memory;
use std::alloc::Global;
use std::cell::RefCell;
use std::io;
use std::io::Write;

/// A program's output, which its sink writes and others hand on: whatever reads hands it on before it waits for input.
#[derive(Drop)]
pub struct Output<W: Write + Drop> {
    collected: RefCell<Collected<W>>,
}

impl<W: Write + Drop> Output<W> {
    /// Makes an output with nothing collected. No later call takes memory.
    pub fn new(alloc: Global, writer: W) -> Result<Output<W>, Memory> {
        let collected = Collected::new(alloc, writer)?;
        Ok(Output {
            collected: RefCell::new(collected),
        })
    }

    /// Hands on all that was written so far. Once some was refused, it fails, as each later write does.
    pub fn hand_on(&self) -> io::Result<()> {
        self.collected.try_borrow_mut()?.flush()
    }
}

impl<W: Write + Drop> Write for &Output<W> {
    fn write(&mut self, piece: &[u8]) -> io::Result<usize> {
        self.collected.try_borrow_mut()?.write(piece)
    }

    fn flush(&mut self) -> io::Result<()> {
        self.hand_on()
    }
}

/// A writer that comes after an output: it writes only if all of the output was handed on before.
#[derive(Drop)]
pub struct BehindOutput<'a, W: Write + Drop, E: Write + Drop> {
    output: &'a Output<W>,
    writer: E,
}

impl<'a, W: Write + Drop, E: Write + Drop> BehindOutput<'a, W, E> {
    ghost use Rattle.hj_net.specs.RealSink.{writer_behind};

    /// Makes a writer that comes after this output.
    pub fn new(output: &'a Output<W>, writer: E) -> BehindOutput<'a, W, E>
        ensures { writer_behind result ≡ writer }
    {
        BehindOutput { output, writer }
    }
}

impl<W: Write + Drop, E: Write + Drop> Write for BehindOutput<'_, W, E> {
    ghost use Rattle.hj_net.specs.RealSink.{writer_behind};

    ghost contents = { λ b. E.contents (writer_behind b) };

    fn write(&mut self, piece: &[u8]) -> io::Result<usize> {
        self.output.hand_on()?;
        self.writer.write(piece)
    }

    fn flush(&mut self) -> io::Result<()> {
        self.output.hand_on()?;
        self.writer.flush()
    }
}

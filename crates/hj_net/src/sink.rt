ghost use Rattle.std.specs.Prelude.{◌≡◌, ◌≢◌, ◌<◌, length};

use crate::{BehindOutput, Output};
use hj_base::{Put, Sink};
use std::io::Write;

/// A sink over any writer. It counts a fault if the writer fails or takes nothing, and refuses a write for no other
/// cause.
#[derive(Drop)]
pub struct RealSink<W: Write + Drop> {
    writer: W,
    faults: u64,
}

impl<W: Write + Drop> RealSink<W> {
    ghost use Rattle.hj_net.specs.RealSink.{faults_of, writer_of};

    /// Makes a sink of this writer with no faults.
    pub fn new(writer: W) -> RealSink<W>
        ensures writer { writer_of result ≡ writer }
        ensures faults { faults_of result ≡ 0 }
    {
        RealSink { writer, faults: 0 }
    }
}

impl<'a, W: Write + Drop> RealSink<&'a Output<W>> {
    ghost use Rattle.hj_net.specs.RealSink.{faults_of, writer_of};

    /// Makes the sink of the output.
    pub fn output(output: &'a Output<W>) -> RealSink<&'a Output<W>>
        ensures writer { writer_of result ≡ output.entry }
        ensures faults { faults_of result ≡ 0 }
    {
        RealSink::new(output)
    }
}

impl<'a, W: Write + Drop, E: Write + Drop> RealSink<BehindOutput<'a, W, E>> {
    ghost use Rattle.hj_net.specs.RealSink.{faults_of, writer_behind, writer_of};

    /// Makes a sink after the output: it writes only if all of the output was handed on before, else it counts a fault.
    pub fn errors(output: &'a Output<W>, writer: E) -> RealSink<BehindOutput<'a, W, E>>
        ensures writer { writer_behind (writer_of result) ≡ writer }
        ensures faults { faults_of result ≡ 0 }
    {
        RealSink::new(BehindOutput::new(output, writer))
    }
}

impl<W: Write + Drop> Sink for RealSink<W> {
    ghost use Rattle.hj_base.specs.Counts.{one_more};
    ghost use Rattle.hj_base.specs.Sink.{CountsFault, CountsRefusal, Writes};
    ghost use Rattle.hj_net.specs.RealSink.{faults_of, writer_of};

    ghost told = { λ s. W.contents (writer_of s) };

    ghost faults = { faults_of };

    ghost refusals = { faults_of };

    fn write(&mut self, piece: &[u8]) -> Put
        requires { 0 < length piece.now }
        ensures writes { Writes result piece.now (W.contents (writer_of self.old)) (W.contents (writer_of self.new)) }
        ensures faults { CountsFault result (faults_of self.old) (faults_of self.new) }
        ensures refusals { CountsRefusal result (faults_of self.old) (faults_of self.new) }
        ensures fault { result ≡ Put.Failed → faults_of self.new ≡ one_more (faults_of self.old) }
        ensures memory { result ≢ Put.Memory }
    {
        match self.writer.write(piece) {
            Ok(count) if count > 0 => Put::Wrote(count),
            _ => {
                self.faults = self.faults.saturating_add(1);
                Put::Failed
            }
        }
    }
}

ghost use Rattle.hj_base.specs.Output.{SendsPiece, CountsFaults, CountsRefusals};

use crate::{Put, Sink};

/// Says how the sending of a piece went.
#[derive(Clone, Copy, Debug, PartialEq, Eq)]
pub enum Sent {
    /// The sink took all of it.
    Whole,
    /// The sink failed; it took a prefix of it.
    Failed,
    /// Memory ran out; the sink took a prefix of it.
    Memory,
}

/// Offers a piece to a sink in one write, and the rest again where the sink took less.
pub fn put_all<K: Sink>(out: &mut K, piece: &[u8]) -> Sent
    ensures sends { SendsPiece result piece.now (K.told out.old) (K.told out.new) }
    ensures faults { CountsFaults result (K.faults out.old) (K.faults out.new) }
    ensures refusals { CountsRefusals result (K.refusals out.old) (K.refusals out.new) }
{
    let mut left = piece;
    while !left.is_empty() {
        match out.write(left) {
            Put::Wrote(count) => left = &left[count..],
            Put::Failed => return Sent::Failed,
            Put::Memory => return Sent::Memory,
        }
    }
    Sent::Whole
}

ghost use Rattle.std.specs.Prelude.{◌≡◌, ◌<◌, ◌++◌, IfOk, OnOk};
ghost use Rattle.hj_gen.specs.Streams.{right_seed, row_line, stream_of};

use crate::number::push_number;
use hj_base::{Bytes, Lcg, Memory};
use std::alloc::Global;

/// The texts of a left and a right stream: a line `TIME,KEY` for each row, of two whole numbers.
#[derive(Debug, Drop)]
pub struct TwoStreams {
    pub left: Bytes,
    pub right: Bytes,
}

/// Makes two streams of `n` rows each, with keys below `keys`, which is at least 1: the left one of the seed, the right
/// one of the next seed (0 after the last).
pub fn streams(alloc: Global, n: u32, keys: u32, seed: u64) -> Result<TwoStreams, Memory>
    requires { 0 < keys }
    ensures left { IfOk result (λ two. two.left ≡ stream_of n keys seed) }
    ensures right { IfOk result (λ two. two.right ≡ stream_of n keys (right_seed seed)) }
{
    Ok(TwoStreams {
        left: stream(alloc, n, keys, seed)?,
        right: stream(alloc, n, keys, seed.wrapping_add(1))?,
    })
}

/// Makes the stream of a seed.
fn stream(alloc: Global, n: u32, keys: u32, seed: u64) -> Result<Bytes, Memory>
    requires { 0 < keys }
    ensures { IfOk result (λ text. text ≡ stream_of n keys seed) }
{
    let mut draws = Lcg::new(seed);
    let mut text = Vec::new(alloc);
    let mut time = 0;
    for _row in 0..n {
        time += draws.draw() % 3;
        let key = draws.draw() % u64::from(keys);
        push_row(&mut text, time, key)?;
    }
    Ok(Bytes::from_vec(text))
}

/// Appends the line of a row.
fn push_row(text: &mut Vec<u8>, time: u64, key: u64) -> Result<(), Memory>
    ensures { OnOk result (text.new.items ≡ text.old.items ++ row_line (record { time = time; key = key })) }
{
    push_number(text, time)?;
    text.push(b',')?;
    push_number(text, key)?;
    text.push(b'\n')?;
    Ok(())
}

//! Rows of one number, their messages, and stores for them.

ghost use Rattle.std.specs.Prelude.{◌≡◌, All, IfOk, [], length};
ghost use Rattle.hj_rows.specs.ListStore.{resting_rows};
ghost use Rattle.hj_chain_tests.specs.TwoRows.{all_match};

use hj_base::{EventNo, Memory, Share};
use hj_msg::{Join, Msg};
use hj_rows::ListStore;
use std::alloc::Global;
use std::process::Abort;

/// The number of the row that can't be shared.
pub(crate) const UNSHARED: u64 = 13;

/// A row of one number.
#[derive(Debug, Drop)]
pub(crate) struct Row(pub(crate) u64);

impl Share for Row {
    fn share(&self) -> Result<Self, Memory> {
        if self.0 == UNSHARED {
            Err(Memory)
        } else {
            Ok(Row(self.0))
        }
    }
}

/// Joins every left row with every right row.
#[derive(Drop)]
pub(crate) struct Cross;

impl Share for Cross {
    fn share(&self) -> Result<Self, Memory> {
        Ok(Cross)
    }
}

impl Join<Row> for Cross {
    ghost predicate = { all_match };

    fn matches(&self, _left: &Row, _right: &Row) -> bool {
        true
    }
}

/// Reads the message of a line: its name, the number of its event, and after that the number of its row.
pub(crate) fn message(rt: &impl Abort, line: &str) -> Msg<Row> {
    let mut words = line.split(' ');
    let name = words.next().expect(rt, "a name");
    let no = EventNo(number_or_0(rt, words.next()));
    let row = Row(number_or_0(rt, words.next()));
    match name {
        "R" => Msg::R { no, row },
        "S" => Msg::S { no, row },
        "AckS" => Msg::AckS(no),
        "EndR" => Msg::EndR(no),
        "ExpR" => Msg::ExpR(no),
        "ExpS" => Msg::ExpS(no),
        "QuietL" => Msg::QuietL(no),
        "QuietR" => Msg::QuietR(no),
        "CloseL" => Msg::CloseL,
        "CloseR" => Msg::CloseR,
        _ => panic!(rt; "no message: {line}"),
    }
}

fn number_or_0(rt: &impl Abort, word: Option<&str>) -> u64 {
    word.unwrap_or("0").parse::<u64>().expect(rt, "a number")
}

/// Takes what may go to another thread.
pub(crate) fn sent<T: Send>(value: T) -> T
    ensures { result ≡ value }
{
    value
}

/// Makes an empty store for each core.
pub(crate) fn stores(alloc: Global, cores: u16) -> Result<Vec<ListStore<Row>>, Memory>
    ensures many { IfOk result (λ stores. length stores.items ≡ cores) }
    ensures empty { IfOk result (λ stores. All (λ store. resting_rows store ≡ []) stores.items) }
{
    let mut stores = Vec::with_capacity(alloc, usize::from(cores))?;
    for _core in 0..cores {
        stores.push(ListStore::new(alloc))?;
    }
    Ok(stores)
}

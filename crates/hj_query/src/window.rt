ghost use Rattle.std.specs.Prelude.{◌≤◌, MatchResult};
ghost use Rattle.hj_query.specs.Faults.{FaultsCount, FaultsSpan, FaultsWindow};
ghost use Rattle.hj_query.specs.Grammar.{IsSpan, IsWindow};
ghost use Rattle.hj_query.specs.Lexemes.{IsNumber};

use crate::cursor::Cursor;
use crate::{QueryFault, Wanted};
use hj_base::Window;

const MOST_ROWS: u64 = 1_000_000;

const MOST_TIME: u64 = 1 << 62;

/// Reads the window of the side with this word.
pub fn window(cursor: &mut Cursor<'_>, word: &[u8]) -> Result<Window, QueryFault>
    ensures { MatchResult result
        (λ window. IsWindow word.now cursor.old window cursor.new)
        (FaultsWindow word.now cursor.old) }
{
    cursor.word(b"window", Wanted::WindowWord)?;
    cursor.word(word, Wanted::WindowSide)?;
    span(cursor)
}

/// Reads `rows` or `time` and a number.
fn span(cursor: &mut Cursor<'_>) -> Result<Window, QueryFault>
    ensures { MatchResult result
        (λ window. IsSpan cursor.old window cursor.new)
        (FaultsSpan cursor.old) }
{
    if cursor.is_word(b"rows") {
        cursor.skip();
        let rows = count(cursor, MOST_ROWS)?;
        return Ok(Window::Rows(rows as u32));
    }
    if cursor.is_word(b"time") {
        cursor.skip();
        let time = count(cursor, MOST_TIME)?;
        return Ok(Window::Time(time));
    }
    Err(cursor.expected(Wanted::WindowKind))
}

/// Reads a number from 1 to the most.
fn count(cursor: &mut Cursor<'_>, most: u64) -> Result<u64, QueryFault>
    ensures { MatchResult result
        (λ count. IsNumber count cursor.old cursor.new × (1 ≤ count) × (count ≤ most))
        (FaultsCount most cursor.old) }
{
    let place = cursor.place();
    let count = cursor.number()?;
    if count == 0 || count > most {
        return Err(QueryFault::WindowRange(place));
    }
    Ok(count)
}

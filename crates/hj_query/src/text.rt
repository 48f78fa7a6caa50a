ghost use Rattle.std.specs.Prelude.{◌≡◌, ◌⊎◌, MatchResult};
ghost use Rattle.hj_query.specs.QueryParts.{QueryParts};
ghost use Rattle.hj_query.specs.Same.{IsSameQuery};
ghost use Rattle.hj_query.specs.Texts.{IsFirstQueryFault, Spells, Unless};
ghost use Rattle.hj_query.specs.declared.fault.QueryFault.{QueryFault};

use crate::condition::condition;
use crate::cursor::Cursor;
use crate::schema::schema;
use crate::schemas::Schemas;
use crate::setting::{Setting, read_setting};
use crate::window::window;
use crate::{Query, QueryFault, Wanted};
use hj_lex::lex;
use std::alloc::Global;

/// How many bytes the text of a query may have.
pub const MOST_BYTES: usize = 65_536;

/// Returns the query that a text spells by the grammar of queries, or the text's first fault.
///
/// `text` is the whole text, which is a query's only where it has at most 65,536 bytes. Its length is looked at
/// first, then its tokens, then the grammar; the place of a fault counts the bytes before it. The answer is `Memory`
/// where memory ran out. The grammar is this project's own: `IsQuery` states it, and `FaultsQuery` the first fault of
/// each other text.
pub fn parse(alloc: Global, text: &[u8]) -> Result<Query, QueryFault>
    ensures reads { MatchResult result (Spells text.now) (λ fault. Unless fault (IsFirstQueryFault text.now)) }

    // A query comes exactly where the text spells it, and each fault exactly where it is the first.
    ensures query { (query : QueryParts) → Spells text.now query
        → MatchResult result (IsSameQuery query) (λ fault. fault ≡ QueryFault.Memory) }
    ensures fault { (found : QueryFault) → IsFirstQueryFault text.now found
        → (result ≡ Err found) ⊎ (result ≡ Err QueryFault.Memory) }
{
    query(alloc, text)
}

/// Reads a query, up to the end of the text.
fn query(alloc: Global, text: &[u8]) -> Result<Query, QueryFault>
    ensures { MatchResult result (Spells text.now) (λ fault. Unless fault (IsFirstQueryFault text.now)) }
{
    if text.len() > MOST_BYTES {
        return Err(QueryFault::TooLong);
    }
    let tokens = lex(alloc, text)?;
    let mut cursor = Cursor::new(text, &tokens);
    let left = schema(alloc, &mut cursor, b"left", Wanted::LeftWord)?;
    let right = schema(alloc, &mut cursor, b"right", Wanted::RightWord)?;
    let left_window = window(&mut cursor, b"left")?;
    let right_window = window(&mut cursor, b"right")?;
    let slack = read_setting(&mut cursor, Setting::Slack)?;
    let quiet = read_setting(&mut cursor, Setting::Quiet)?;
    let schemas = Schemas { left, right };
    let pred = condition(alloc, &schemas, &mut cursor)?;
    Ok(Query::new(
        schemas,
        left_window,
        right_window,
        slack,
        quiet as u32,
        pred,
    ))
}

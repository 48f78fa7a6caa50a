ghost use Rattle.std.specs.Prelude.{◌≡◌, ◌+◌, ◌<◌, ◌≤◌, ◌++◌, ◌||◌, List, OnOk};
ghost use Rattle.hj_value.specs.declared.column.Column.{Column};
ghost use Rattle.hj_base.specs.declared.numbers.Side.{Side};
ghost use Rattle.hj_query.specs.Canonical.{enclosed_if, is_and, is_or, pred_text};
ghost use Rattle.hj_query.specs.Grammar.{columns_of, op_sign};
ghost use Rattle.hj_query.specs.Unwritten.{piece_text, piece_turns, pred_turns, turns, unwritten};
ghost use Rattle.hj_query.specs.declared.pred.Pred.{Compare, Within};

use super::pieces::{push_bytes, push_count};
use super::terms::push_sum;
use crate::{Op, Pred, Query, Sum};
use hj_base::Memory;
use std::alloc::Global;

/// A piece of a condition's text that is still to be written.
#[derive(Clone, Copy)]
enum UnwrittenPiece<'a> {
    Bytes(&'static [u8]),
    Bare(&'a Pred),
    /// A condition in parentheses.
    Enclosed(&'a Pred),
}

/// Adds a condition to a text. It takes no recursion, since the left operands may stand as deep as the condition is long.
pub fn push_pred(
    alloc: Global,
    text: &mut Vec<u8>,
    query: &Query,
    pred: &Pred,
) -> Result<(), Memory>
    ensures { OnOk result (text.new.items ≡ text.old.items ++ pred_text (columns_of query.now) pred.now) }
{
    let mut todo = Vec::new(alloc);
    todo.push(UnwrittenPiece::Bare(pred))?;
    'pieces: while let Some(piece) = todo.pop() {
        push_piece(text, &mut todo, query, piece)?;
    }
    Ok(())
}

/// Adds the beginning of a piece to a text, and puts what follows it on the pieces.
fn push_piece<'a>(
    text: &mut Vec<u8>,
    todo: &mut Vec<UnwrittenPiece<'a>>,
    query: &Query,
    piece: UnwrittenPiece<'a>,
) -> Result<(), Memory>
    ensures whole { OnOk result (text.new.items ++ unwritten (columns_of query.now) todo.new.items
        ≡ text.old.items ++ piece_text (columns_of query.now) piece.entry ++ unwritten (columns_of query.now) todo.old.items) }
    ensures fewer { OnOk result (turns todo.new.items < turns todo.old.items + piece_turns piece.entry) }
{
    match piece {
        UnwrittenPiece::Bytes(bytes) => push_bytes(text, bytes),
        UnwrittenPiece::Bare(pred) => push_node(text, todo, query, pred),
        UnwrittenPiece::Enclosed(pred) => {
            push_bytes(text, b"(")?;
            todo.push(UnwrittenPiece::Bytes(b")"))?;
            todo.push(UnwrittenPiece::Bare(pred))?;
            Ok(())
        }
    }
}

/// Adds the beginning of a condition to a text, and puts what follows it on the pieces.
fn push_node<'a>(
    text: &mut Vec<u8>,
    todo: &mut Vec<UnwrittenPiece<'a>>,
    query: &Query,
    pred: &'a Pred,
) -> Result<(), Memory>
    ensures whole { OnOk result (text.new.items ++ unwritten (columns_of query.now) todo.new.items
        ≡ text.old.items ++ pred_text (columns_of query.now) pred.now ++ unwritten (columns_of query.now) todo.old.items) }
    ensures fewer { OnOk result (turns todo.new.items < turns todo.old.items + pred_turns pred.now) }
{
    match pred {
        Pred::Or(left, right) => {
            todo.push(operand(right, is_or(right)))?;
            todo.push(UnwrittenPiece::Bytes(b" or "))?;
            todo.push(UnwrittenPiece::Bare(left))?;
            Ok(())
        }
        Pred::And(left, right) => {
            todo.push(operand(right, is_joined(right)))?;
            todo.push(UnwrittenPiece::Bytes(b" and "))?;
            todo.push(operand(left, is_or(left)))?;
            Ok(())
        }
        Pred::Not(inner) => {
            push_bytes(text, b"not ")?;
            todo.push(operand(inner, is_joined(inner)))?;
            Ok(())
        }
        Pred::Compare(op, left, right) => push_comparison(text, query, *op, left, right),
        Pred::Within(distance, left, right) => push_distance(text, query, *distance, left, right),
    }
}

/// Makes the piece of a condition, in parentheses where they are needed.
fn operand(pred: &Pred, needed: bool) -> UnwrittenPiece<'_>
    ensures text { (columns : Side → List Column) → piece_text columns result ≡ enclosed_if needed (pred_text columns pred.now) }
    ensures turns { piece_turns result ≤ pred_turns pred.now + 2 }
{
    if needed {
        UnwrittenPiece::Enclosed(pred)
    } else {
        UnwrittenPiece::Bare(pred)
    }
}

/// Returns whether a condition is an `or`.
fn is_or(pred: &Pred) -> bool
    ensures { result ≡ is_or pred.now }
{
    matches!(pred, Pred::Or(_, _))
}

/// Returns whether a condition is an `or` or an `and`.
fn is_joined(pred: &Pred) -> bool
    ensures { result ≡ (is_or pred.now || is_and pred.now) }
{
    matches!(pred, Pred::Or(_, _) | Pred::And(_, _))
}

/// Adds a comparison of two sums to a text.
fn push_comparison(
    text: &mut Vec<u8>,
    query: &Query,
    op: Op,
    left: &Sum,
    right: &Sum,
) -> Result<(), Memory>
    ensures { OnOk result (text.new.items ≡ text.old.items ++ pred_text (columns_of query.now) (Compare op left.now right.now)) }
{
    push_sum(text, query, left)?;
    push_bytes(text, b" ")?;
    push_bytes(text, op_sign(op))?;
    push_bytes(text, b" ")?;
    push_sum(text, query, right)
}

/// Returns the sign of a comparison.
fn op_sign(op: Op) -> &'static [u8]
    ensures { result.now ≡ op_sign op }
{
    match op {
        Op::Eq => b"=",
        Op::Ne => b"!=",
        Op::Lt => b"<",
        Op::Le => b"<=",
        Op::Gt => b">",
        Op::Ge => b">=",
    }
}

/// Adds two sums and the most that they may differ by to a text.
fn push_distance(
    text: &mut Vec<u8>,
    query: &Query,
    distance: u64,
    left: &Sum,
    right: &Sum,
) -> Result<(), Memory>
    ensures { OnOk result (text.new.items ≡ text.old.items ++ pred_text (columns_of query.now) (Within distance left.now right.now)) }
{
    push_sum(text, query, left)?;
    push_bytes(text, b" within ")?;
    push_count(text, distance)?;
    push_bytes(text, b" of ")?;
    push_sum(text, query, right)
}

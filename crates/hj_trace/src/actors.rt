ghost use Rattle.std.specs.Prelude.{◌≡◌, ◌≢◌, ◌<◌, ◌^◌, ◌∷◌, ◌++◌, ℕ, None, IfSome, OnOk};
ghost use Rattle.std.specs.Fmt.{decimal};
ghost use Rattle.hj_base.specs.declared.numbers.Side.{Side as Ends};
ghost use Rattle.hj_chain.specs.declared.actor.Actor.{Actor as Actors};
ghost use Rattle.hj_trace.specs.Actors.{IsNumbered, actor_text, end_text};

use crate::text::{push_numbered, push_words};
use hj_base::{CoreNo, Memory, Side};
use hj_chain::Actor;
use itoa::Buffer;
use std::str;

/// The most bytes that the text of an actor has.
pub const MOST_IN_ACTOR: usize = 7;

/// Appends the text of an actor.
pub fn push_actor(text: &mut Vec<u8>, actor: Actor) -> Result<(), Memory>
    ensures { OnOk result (text.new.items ≡ text.old.items ++ actor_text actor) }
{
    match actor {
        Actor::Admit => push_words(text, "A"),
        Actor::PortLeft => push_words(text, "PL"),
        Actor::PortRight => push_words(text, "PR"),
        Actor::Core(core, end) => {
            push_numbered(text, "C", u64::from(core.0))?;
            push_words(text, name_of_end(end))
        }
        Actor::Collect(core) => push_numbered(text, "K", u64::from(core.0)),
    }
}

/// Returns the letter of an end.
fn name_of_end(end: Side) -> &'static str
    ensures { result.now ≡ end_text end }
{
    match end {
        Side::Left => "L",
        Side::Right => "R",
    }
}

/// Reads the text of an actor; None exactly where it is none.
pub fn read_actor(text: &[u8]) -> Option<Actor>
    ensures spells { IfSome result (λ actor. text.now ≡ actor_text actor) }
    ensures numbered { IfSome result (λ actor. IsNumbered actor) }
    ensures none { result ≡ None → (actor : Actors) → IsNumbered actor → text.now ≢ actor_text actor }
{
    let [kind, rest @ ..] = text else {
        return None;
    };
    match *kind {
        b'A' if rest.is_empty() => Some(Actor::Admit),
        b'P' => match read_end(rest) {
            Some(Side::Left) => Some(Actor::PortLeft),
            Some(Side::Right) => Some(Actor::PortRight),
            None => None,
        },
        b'C' => read_core_end(rest),
        b'K' => Some(Actor::Collect(read_core(rest)?)),
        _ => None,
    }
}

/// Reads the letter of an end; None exactly where it is none.
fn read_end(text: &[u8]) -> Option<Side>
    ensures spells { IfSome result (λ end. text.now ≡ end_text end) }
    ensures none { result ≡ None → (end : Ends) → text.now ≢ end_text end }
{
    match text {
        b"L" => Some(Side::Left),
        b"R" => Some(Side::Right),
        _ => None,
    }
}

/// Reads what follows the letter of a core that takes a message: its number, and the letter of an end.
fn read_core_end(text: &[u8]) -> Option<Actor>
    ensures spells { IfSome result (λ actor. 67 ∷ text.now ≡ actor_text actor) }
    ensures numbered { IfSome result (λ actor. IsNumbered actor) }
    ensures none { result ≡ None → (n : ℕ) (end : Ends) → n < 2 ^ 16 → text.now ≢ decimal n ++ end_text end }
{
    let digits = text.len().checked_sub(1)?;
    let end = read_end(&text[digits..])?;
    Some(Actor::Core(read_core(&text[..digits])?, end))
}

/// Reads the number of a core; None exactly where it isn't the decimal text of one.
fn read_core(digits: &[u8]) -> Option<CoreNo>
    ensures spells { IfSome result (λ core. digits.now ≡ decimal core.0) }
    ensures fits { IfSome result (λ core. core.0 < 2 ^ 16) }
    ensures none { result ≡ None → (n : ℕ) → n < 2 ^ 16 → digits.now ≢ decimal n }
{
    // Mostly there are few cores.
    if digits.len() == 1 && digits[0].is_ascii_digit() {
        return Some(CoreNo(u16::from(digits[0] - b'0')));
    }
    let text = match str::from_utf8(digits) {
        Ok(text) => text,
        Err(_) => return None,
    };
    let number = match text.parse::<u16>() {
        Ok(number) => number,
        Err(_) => return None,
    };
    if Buffer::new().format(number).as_bytes() != digits {
        return None;
    }
    Some(CoreNo(number))
}

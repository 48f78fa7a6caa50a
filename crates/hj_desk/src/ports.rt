//! The two ends of the chain.
ghost use Rattle.std.specs.Prelude.{◌≡◌, ◌+◌, ◌<◌, ◌++◌, ◌∷◌, [], IfSome, IfNone, MatchBool};
ghost use Rattle.hj_base.specs.declared.numbers.Side.TheVariants.{Left as OnLeft, Right as OnRight};
ghost use Rattle.hj_base.specs.Journals.{put};
ghost use Rattle.hj_msg.specs.Driver.{receipt, closing};
ghost use Rattle.hj_msg.specs.Turns.{only_at};

use hj_base::Side;
use hj_link::{LeftEnd, RightEnd};
use hj_msg::Msg;

/// The ends of the chain, at which the driver puts and takes.
#[derive(Drop)]
pub struct Ports<P: Drop> {
    /// The left end of the first link.
    pub left: LeftEnd<Msg<P>>,
    /// The right end of the last link.
    pub right: RightEnd<Msg<P>>,
}

impl<P: Drop> Ports<P> {
    ghost use Rattle.hj_desk.specs.Ports.{end_at, KeepsLinks, Notes, IsQuiet, FoundEmpty, FoundFull};

    /// Takes the first message that comes out at a port, under a turn.
    #[inline(always)]
    pub fn take(&mut self, port: Side, turn: u64) -> Option<Msg<P>>
        ensures links { KeepsLinks self.old self.new }
        ensures taken { IfSome result (λ message. Notes turn (receipt port message) self.old self.new) }
        ensures quiet { IfNone result (IsQuiet self.old self.new) }
        ensures empty { IfNone result (FoundEmpty port self.old self.new) }
    {
        match port {
            Side::Left => self.left.take(turn),
            Side::Right => self.right.take(turn),
        }
    }

    /// Returns whether the next put at a port finds room. Doesn't look at the other port.
    #[inline(always)]
    pub fn has_room(&mut self, port: Side) -> bool
        ensures links { KeepsLinks self.old self.new }
        ensures quiet { IsQuiet self.old self.new }
        ensures room { MatchBool result (0 < (end_at port self.new).room) (FoundFull port self.old self.new) }
        ensures right { port ≡ OnLeft → self.new.right ≡ self.old.right }
        ensures left { port ≡ OnRight → self.new.left ≡ self.old.left }
    {
        match port {
            Side::Left => self.left.room(),
            Side::Right => self.right.room(),
        }
    }

    /// Puts a message at a port that has room, under a turn.
    #[inline(always)]
    pub fn put(&mut self, port: Side, turn: u64, message: Msg<P>)
        requires { 0 < (end_at port self.old).room }
        ensures links { KeepsLinks self.old self.new }
        ensures left { self.new.left.journal ≡ self.old.left.journal ++ only_at port OnLeft (put turn message) }
        ensures right { self.new.right.journal ≡ self.old.right.journal ++ only_at port OnRight (put turn message) }
    {
        let put = match port {
            Side::Left => self.left.put(turn, message),
            Side::Right => self.right.put(turn, message),
        };
        if put.is_err() {
            unreachable!()
        }
    }

    /// Puts both closes, under one turn.
    pub fn put_closes(&mut self, turn: u64)
        requires left { 0 < self.old.left.room }
        requires right { 0 < self.old.right.room }
        ensures links { KeepsLinks self.old self.new }
        ensures closes { Notes turn closing self.old self.new }
    {
        if self.left.put(turn, Msg::CloseL).is_err() || self.right.put(turn, Msg::CloseR).is_err() {
            unreachable!()
        }
    }
}

ghost use Rattle.std.specs.Prelude.{◌≡◌, ◌+◌, ◌++◌, ◌^◌, ◌<◌, ◌≤◌, [], ◌∷◌, length, replicate, IfOk};
ghost use Rattle.std.specs.Option.{option_copied};
ghost use Rattle.hj_base.specs.declared.numbers.Side.TheVariants.{Left, Right};
ghost use Rattle.hj_msg.specs.Core.{only_if, sends};
ghost use Rattle.hj_msg.specs.declared.message.Msg.TheVariants.{R as LeftRow, S as RightRow};
ghost use Rattle.hj_core.specs.Rows.{row_message};
ghost use Rattle.hj_core.specs.Sent.{passed_on};
ghost use Rattle.hj_chain.specs.Queues.{no_messages};
ghost use Rattle.hj_chain.specs.Chain.{first};
ghost use Rattle.hj_chain.specs.Links.{link_at, changed_at, put_leftwards, put_rightwards, at_port, HasRoomAt, incoming as incoming_of, put_in, put_back, send_out, take_out, take_in, HasRoomBack};

use crate::PlainLink;
use hj_base::{EventNo, Memory, Side};
use hj_core::Way;
use hj_msg::Msg;
use std::alloc::Global;
use std::marker::Model;

/// The links of a chain, from its left end to its right end.
#[derive(Drop)]
pub struct Links<P> {
    links: Vec<PlainLink<Msg<P>>>,
}

impl<P> Model for Links<P> {
    ghost use Rattle.std.specs.Prelude.{List};
    ghost use Rattle.hj_msg.specs.declared.message.Msg.{Msg};
    ghost use Rattle.hj_chain.specs.Queues.{Queues};

    ghost Value = { List (Queues (Msg P)) };

    ghost view = { λ l. l.links.items };
}

impl<P: Drop> Links<P> {
    /// Makes the links of this many cores, with nothing under way and with room for `capacity` messages in each
    /// direction.
    pub fn new(alloc: Global, cores: usize, capacity: usize) -> Result<Self, Memory>
        requires { cores ≤ 64 }
        ensures { IfOk result (λ links. links ≡ replicate (cores + 1) (no_messages capacity)) }
    {
        let mut links = Vec::with_capacity(alloc, cores + 1)?;
        for _at in 0..cores + 1 {
            links.push(PlainLink::new(alloc, capacity)?)?;
        }
        Ok(Links { links })
    }

    /// Returns the first message that comes in at an end of a core that is there; None exactly where there is none.
    #[inline(always)]
    pub fn incoming(&self, core: usize, end: Side) -> Option<&Msg<P>>
        requires { core + 1 < length self.now }
        ensures { option_copied result ≡ first (incoming_of end core self.now) }
    {
        match end {
            Side::Left => self.links[core].look_right(),
            Side::Right => self.links[core + 1].look_left(),
        }
    }

    /// Returns the same of any core; None where it isn't there, as past the last link.
    #[inline(always)]
    pub fn incoming_if_there(&self, core: usize, end: Side) -> Option<&Msg<P>>
        requires { core < 2 ^ 16 }
        ensures { option_copied result ≡ first (incoming_of end core self.now) }
    {
        match end {
            Side::Left => self.links.get(core)?.look_right(),
            Side::Right => self.links.get(core + 1)?.look_left(),
        }
    }

    /// Returns the first message that comes out at a port of a chain of this many cores; None exactly where there is
    /// none, as past the last link.
    #[inline(always)]
    pub fn outgoing(&self, port: Side, cores: usize) -> Option<&Msg<P>>
        ensures { option_copied result ≡ first (at_port port cores self.now) }
    {
        match port {
            Side::Left => self.links.first()?.look_left(),
            Side::Right => self.links.get(cores)?.look_right(),
        }
    }

    /// Takes the first message that comes in at an end of a core.
    #[inline(always)]
    pub fn take_in(&mut self, core: usize, end: Side) -> Option<Msg<P>>
        requires { core + 1 < length self.old }
        ensures first { result ≡ first (incoming_of end core self.old) }
        ensures rest { self.new ≡ take_in end core self.old }
    {
        match end {
            Side::Left => self.links[core].take_right(),
            Side::Right => self.links[core + 1].take_left(),
        }
    }

    /// Puts a message back that was taken last at an end of a core.
    #[cold]
    pub fn put_back(&mut self, core: usize, end: Side, msg: Msg<P>)
        requires in_range { core + 1 < length self.old }
        requires room { HasRoomBack end core self.old }
        ensures { self.new ≡ put_back end core msg self.old }
    {
        match end {
            Side::Left => self.links[core].put_back_right(msg),
            Side::Right => self.links[core + 1].put_back_left(msg),
        }
    }

    /// Puts a message on a link to the right.
    #[inline(always)]
    pub fn put_right(&mut self, at: usize, msg: Msg<P>)
        requires in_range { at < length self.old }
        requires room { length (link_at self.old at).rightwards < (link_at self.old at).capacity }
        ensures { self.new ≡ changed_at at (put_rightwards (msg ∷ [])) self.old }
    {
        self.links[at].send_right(msg);
    }

    /// Puts a message on a link to the left.
    #[inline(always)]
    pub fn put_left(&mut self, at: usize, msg: Msg<P>)
        requires in_range { at < length self.old }
        requires room { length (link_at self.old at).leftwards < (link_at self.old at).capacity }
        ensures { self.new ≡ changed_at at (put_leftwards (msg ∷ [])) self.old }
    {
        self.links[at].send_left(msg);
    }

    /// Puts a message on a link to the right, if it is to be sent.
    #[inline(always)]
    fn put_right_if(&mut self, at: usize, holds: bool, msg: Msg<P>)
        requires in_range { at < length self.old }
        requires room { length (link_at self.old at).rightwards + length (only_if holds msg) ≤ (link_at self.old at).capacity }
        ensures { self.new ≡ changed_at at (put_rightwards (only_if holds msg)) self.old }
    {
        if holds {
            self.put_right(at, msg);
        }
    }

    /// Puts a message on a link to the left, if it is to be sent.
    #[inline(always)]
    fn put_left_if(&mut self, at: usize, holds: bool, msg: Msg<P>)
        requires in_range { at < length self.old }
        requires room { length (link_at self.old at).leftwards + length (only_if holds msg) ≤ (link_at self.old at).capacity }
        ensures { self.new ≡ changed_at at (put_leftwards (only_if holds msg)) self.old }
    {
        if holds {
            self.put_left(at, msg);
        }
    }

    /// Puts what a core of this place among `cores` sends for a message that it handled on the links at its sides.
    #[inline(always)]
    pub fn send_on(&mut self, place: usize, cores: usize, msg: Msg<P>)
        requires small { place < 2 ^ 16 }
        requires in_range { place + 1 < length self.old }
        requires room_left { length (link_at self.old place).leftwards + 1 ≤ (link_at self.old place).capacity }
        requires room_right { length (link_at self.old (place + 1)).rightwards + length (sends place cores msg).right ≤ (link_at self.old (place + 1)).capacity }
        ensures { self.new ≡ send_out place (sends place cores msg).left (sends place cores msg).right self.old }
    {
        match msg {
            Msg::R { no, row } => self.send_left_row(place, cores, no, row),
            Msg::S { no, row } => self.send_right_row(place, cores, no, row),
            Msg::EndR(_) | Msg::ExpR(_) | Msg::QuietR(_) | Msg::CloseR => {
                self.put_left(place, msg);
            }
            Msg::EndS(_) | Msg::ExpS(_) | Msg::QuietL(_) | Msg::CloseL => {
                self.put_right(place + 1, msg);
            }
            Msg::AckS(_) => {}
        }
    }

    /// Puts a message that passed through a core of this place on the link on its way.
    #[inline(always)]
    pub fn carry(&mut self, place: usize, way: Way, msg: Msg<P>)
        requires small { place < 2 ^ 16 }
        requires in_range { place + 1 < length self.old }
        requires room_left { length (link_at self.old place).leftwards + 1 ≤ (link_at self.old place).capacity }
        requires room_right { length (link_at self.old (place + 1)).rightwards + length (passed_on way msg).right ≤ (link_at self.old (place + 1)).capacity }
        ensures { self.new ≡ send_out place (passed_on way msg).left (passed_on way msg).right self.old }
    {
        match way {
            Way::Left => self.put_left(place, msg),
            Way::Right => self.put_right(place + 1, msg),
            Way::Nowhere => {}
        }
    }

    /// Puts what a core of this place among `cores` sends for a left row, or for a right one.
    #[inline(always)]
    pub fn send_row<const IS_LEFT: bool>(&mut self, place: usize, cores: usize, no: EventNo, row: P)
        requires small { place < 2 ^ 16 }
        requires in_range { place + 1 < length self.old }
        requires room_left { length (link_at self.old place).leftwards + 1 ≤ (link_at self.old place).capacity }
        requires room_right { length (link_at self.old (place + 1)).rightwards + length (sends place cores (row_message IS_LEFT no row)).right ≤ (link_at self.old (place + 1)).capacity }
        ensures { self.new ≡ send_out place (sends place cores (row_message IS_LEFT no row)).left (sends place cores (row_message IS_LEFT no row)).right self.old }
    {
        if IS_LEFT {
            self.send_left_row(place, cores, no, row);
        } else {
            self.send_right_row(place, cores, no, row);
        }
    }

    /// Puts what a core of this place among `cores` sends for a left row: the row to the right, and at the last core its end to the left.
    #[inline(always)]
    fn send_left_row(&mut self, place: usize, cores: usize, no: EventNo, row: P)
        requires small { place < 2 ^ 16 }
        requires in_range { place + 1 < length self.old }
        requires room_left { length (link_at self.old place).leftwards + 1 ≤ (link_at self.old place).capacity }
        requires room_right { length (link_at self.old (place + 1)).rightwards + 1 ≤ (link_at self.old (place + 1)).capacity }
        ensures { self.new ≡ send_out place (sends place cores (LeftRow no row)).left (sends place cores (LeftRow no row)).right self.old }
    {
        self.put_left_if(place, place + 1 == cores, Msg::EndR(no));
        self.put_right(place + 1, Msg::R { no, row });
    }

    /// Puts what a core of this place among `cores` sends for a right row: the row to the left; to the right an acknowledgement, if there
    /// is a neighbour, and at the first core its end.
    #[inline(always)]
    fn send_right_row(&mut self, place: usize, cores: usize, no: EventNo, row: P)
        requires small { place < 2 ^ 16 }
        requires in_range { place + 1 < length self.old }
        requires room_left { length (link_at self.old place).leftwards + 1 ≤ (link_at self.old place).capacity }
        requires room_right { length (link_at self.old (place + 1)).rightwards + length (sends place cores (RightRow no row)).right ≤ (link_at self.old (place + 1)).capacity }
        ensures { self.new ≡ send_out place (sends place cores (RightRow no row)).left (sends place cores (RightRow no row)).right self.old }
    {
        self.put_left(place, Msg::S { no, row });
        self.put_right_if(place + 1, place + 1 < cores, Msg::AckS(no));
        self.put_right_if(place + 1, place == 0, Msg::EndS(no));
    }

    /// Puts a message in at a port of a chain of this many cores.
    #[inline(always)]
    pub fn put_in(&mut self, port: Side, cores: usize, msg: Msg<P>)
        requires in_range { cores < length self.old }
        requires room { HasRoomAt port cores self.old }
        ensures { self.new ≡ put_in port cores msg self.old }
    {
        match port {
            Side::Left => self.put_right(0, msg),
            Side::Right => self.put_left(cores, msg),
        }
    }

    /// Takes the first message that comes out at a port of a chain of this many cores.
    #[inline(always)]
    pub fn take_out(&mut self, port: Side, cores: usize) -> Option<Msg<P>>
        requires { cores < length self.old }
        ensures first { result ≡ first (at_port port cores self.old) }
        ensures rest { self.new ≡ take_out port cores self.old }
    {
        match port {
            Side::Left => self.links[0].take_left(),
            Side::Right => self.links[cores].take_right(),
        }
    }
}

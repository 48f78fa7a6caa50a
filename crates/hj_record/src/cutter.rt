ghost use Rattle.std.specs.Prelude.{◌≡◌, ◌<◌, ◌≤◌, ◌-◌, ◌%◌, ◌++◌, ◌==◌, ◌↔◌, IsTrue, false, List, ℕ, length, take, min, OnOk, OnErr};
ghost use Rattle.hj_record.specs.Cutter.{fresh, cleared, Feeds, EndsStream, Leads, LeadsAtEnd, Takes, FitsLimits};
ghost use Rattle.hj_record.specs.Cuts.{Cuts, LeadsBy};
ghost use Rattle.hj_record.specs.declared.cutter.Cut.TheVariants as cuts;
ghost use Rattle.hj_record.specs.Line.{most_in_next};
ghost use Rattle.hj_record.specs.LineEnd.{Finds, FindsFor, HasEnd};
ghost use Rattle.hj_record.specs.Pieces.{IsPiece, IsUnended, quotes, most_in_piece};

use crate::{LINE_FEED, PieceFault, QUOTE};
use std::alloc::{AllocError, Global};
use std::marker::Model;

const MOST_IN_PIECE: u64 = 65_536;

/// The answer to a portion of bytes, or to the end of the stream.
#[derive(Clone, Copy, Debug, PartialEq, Eq)]
pub enum Fed {
    /// All bytes were taken, and the piece goes on. At the end of the stream: nothing is left.
    More,
    /// The piece has its end; this many bytes of the portion were taken.
    Piece(usize),
    /// The stream is refused here, and at every later call.
    Bad(PieceFault),
}

/// The answer to a portion of bytes of which a whole piece is not copied.
#[derive(Clone, Copy, Debug, PartialEq, Eq)]
pub enum Cut {
    /// All bytes were taken, and the piece goes on.
    More,
    /// The piece is this many bytes at the start of the portion. The cutter is ready for the next one.
    Lent(usize),
    /// The piece that an earlier portion began has its end; this many bytes of this portion were taken.
    Piece(usize),
    /// The stream is refused here, and at every later call.
    Bad(PieceFault),
}

/// Cuts a stream into pieces, in whatever portions its bytes come.
#[derive(Drop)]
pub struct Cutter {
    /// How many bytes the stream may have from the first of this piece on.
    room: u64,
    /// The bytes of this piece so far.
    piece: Vec<u8>,
    /// Whether they end inside quotes.
    inside: bool,
    /// Whether the piece has its end.
    whole: bool,
    fault: Option<PieceFault>,
}

/// The first line feed outside quotes in some bytes.
#[derive(Clone, Copy)]
enum LineEnd {
    /// It stands at this place.
    At(usize),
    /// None stands there, and the bytes end inside quotes or outside.
    Beyond { inside: bool },
}

impl Model for Cutter {
    ghost use Rattle.hj_record.specs.Cutter.{Cutting};
    ghost use Rattle.hj_record.specs.CutterFields.{IsSound};

    ghost Value = { Cutting };

    ghost view = { λ c. record { room = c.room; piece = c.piece.items; whole = c.whole; fault = c.fault } };

    ghost invariant = { λ c. IsSound c.room c.piece.items c.inside c.whole };
}

impl Cutter {
    /// Makes a cutter of a stream that may have `limit` bytes.
    pub fn new(alloc: Global, limit: u64) -> Self
        ensures { result ≡ fresh limit }
    {
        Cutter {
            room: limit,
            piece: Vec::new(alloc),
            inside: false,
            whole: false,
            fault: None,
        }
    }

    /// Returns the bytes of the current piece so far, all of them after an answer `Piece`.
    pub fn piece(&self) -> &[u8]
        ensures piece { result.now ≡ self.now.piece }
        ensures short { length result.now ≤ most_in_piece }
    {
        &self.piece
    }

    /// Gets ready for the next piece. After an answer `Bad` every later answer stays the same.
    pub fn clear(&mut self)
        ensures { self.new ≡ cleared self.old }
    {
        self.room -= self.piece.len() as u64;
        self.piece.clear();
        self.inside = false;
        self.whole = false;
    }

    /// Takes the next bytes of the stream, up to the end of a piece. After an answer `Piece`, call `clear`, and feed
    /// the bytes that weren't taken.
    pub fn feed(&mut self, bytes: &[u8]) -> Fed
        requires { self.old.whole ≡ false }
        ensures takes { Feeds result bytes.now self.old self.new }
        ensures leads { self.old.fault ≡ None → Leads result bytes.now self.old self.new }
    {
        if let Some(fault) = self.fault {
            return Fed::Bad(fault);
        }
        let end = self.find(bytes);
        self.take(bytes, end)
    }

    /// Takes the next bytes of the stream, up to the end of a piece, and copies none of a piece that lies whole at
    /// their start. After an answer `Piece` the bytes of the piece are in `piece`: then call `clear`. After it and
    /// after `Lent` go on with the bytes that weren't taken.
    #[inline(always)]
    pub fn cut(&mut self, bytes: &[u8]) -> Cut
        requires { self.old.whole ≡ false }
        ensures takes { Cuts result bytes.now self.old self.new }
        ensures leads { self.old.fault ≡ None → LeadsBy result bytes.now self.old self.new }
    {
        if let Some(fault) = self.fault {
            return Cut::Bad(fault);
        }
        let end = self.find(bytes);
        if let LineEnd::At(at) = end
            && self.piece.is_empty()
        {
            self.room -= at as u64 + 1;
            return Cut::Lent(at + 1);
        }
        match self.take(bytes, end) {
            Fed::More => Cut::More,
            Fed::Piece(used) => Cut::Piece(used),
            Fed::Bad(fault) => Cut::Bad(fault),
        }
    }

    /// Returns how many bytes the next piece may have; 0 where an earlier portion began it, or the stream is refused.
    #[inline(always)]
    pub fn most_in_next(&self) -> usize
        ensures { result ≡ most_in_next self.now }
    {
        if self.piece.is_empty() && self.fault.is_none() {
            self.room.min(MOST_IN_PIECE) as usize
        } else {
            0
        }
    }

    /// Goes past a piece at the start of a portion, of which it is known that it has this many bytes. The cutter is ready for the
    /// next one, as after an answer `Lent`.
    #[inline(always)]
    pub fn skip_piece(&mut self, used: usize)
        requires going { self.old.whole ≡ false }
        requires some { 0 < used }
        requires within { used ≤ most_in_next self.old }
        ensures room { self.new ≡ record self.old { room = self.old.room - used } }
        ensures takes { (bytes : List ℕ) → used ≤ length bytes → IsPiece (take used bytes) → Cuts (cuts.Lent used) bytes self.old self.new }
        ensures leads { (bytes : List ℕ) → used ≤ length bytes → IsPiece (take used bytes) → LeadsBy (cuts.Lent used) bytes self.old self.new }
    {
        self.room -= used as u64;
    }

    /// Returns whether the bytes of the current piece so far end inside quotes.
    #[inline(always)]
    pub fn is_inside(&self) -> bool
        ensures { result ≡ (quotes self.now.piece % 2 == 1) }
    {
        self.inside
    }

    /// Returns whether the piece has its end in these bytes, if they come next.
    #[inline(always)]
    pub fn has_end(&self, bytes: &[u8]) -> bool
        ensures { IsTrue result ↔ HasEnd bytes.now self.now }
    {
        matches!(self.find(bytes), LineEnd::At(_))
    }

    /// Ends the stream: the rest is a piece, or there is none, or it ends inside quotes.
    pub fn end(&mut self) -> Fed
        requires { self.old.whole ≡ false }
        ensures ends { EndsStream result self.old self.new }
        ensures leads { self.old.fault ≡ None → LeadsAtEnd result self.old self.new }
    {
        if let Some(fault) = self.fault {
            return Fed::Bad(fault);
        }
        if self.piece.is_empty() {
            return Fed::More;
        }
        if self.inside {
            return self.fail(PieceFault::OpenQuote);
        }
        self.whole = true;
        Fed::Piece(0)
    }

    /// Finds the first line feed outside quotes among the bytes that the piece may still take.
    #[inline(always)]
    fn find(&self, bytes: &[u8]) -> LineEnd
        ensures { FindsFor result bytes.now self.now }
    {
        let within = &bytes[..self.spare().min(bytes.len())];
        find_line_end(within, self.inside)
    }

    /// Takes the next bytes of a stream without a fault, once their first line feed was looked for.
    fn take(&mut self, bytes: &[u8], end: LineEnd) -> Fed
        requires going { self.old.whole ≡ false }
        requires sound { self.old.fault ≡ None }
        requires found { FindsFor end bytes.now self.old }
        ensures { Takes result bytes.now self.old self.new }
    {
        let room = self.room;
        match end {
            LineEnd::At(at) => {
                let taken = at + 1;
                match self.append(&bytes[..taken], false, true) {
                    Ok(()) => Fed::Piece(taken),
                    Err(_) => self.fail(PieceFault::Memory),
                }
            }
            LineEnd::Beyond { inside } if bytes.len() <= self.spare() => {
                match self.append(bytes, inside, false) {
                    Ok(()) => Fed::More,
                    Err(_) => self.fail(PieceFault::Memory),
                }
            }
            LineEnd::Beyond { .. } if room <= MOST_IN_PIECE => { self.fail(PieceFault::StreamLong) }
            LineEnd::Beyond { .. } => self.fail(PieceFault::TooLong),
        }
    }

    /// Returns how many bytes the piece may still take.
    #[inline(always)]
    fn spare(&self) -> usize
        ensures { result ≡ min self.now.room most_in_piece - length self.now.piece }
    {
        self.room.min(MOST_IN_PIECE) as usize - self.piece.len()
    }

    /// Appends bytes to the piece, which then ends inside quotes or outside, and may have its end. An error changes
    /// nothing.
    fn append(&mut self, bytes: &[u8], inside: bool, whole: bool) -> Result<(), AllocError>
        requires fits { FitsLimits (record self.old { piece = self.old.piece ++ bytes.now }) }
        requires parity { inside ≡ (quotes (self.old.piece ++ bytes.now) % 2 == 1) }
        requires unended { whole ≡ false → IsUnended (self.old.piece ++ bytes.now) }
        ensures ok { OnOk result
            (self.new ≡ record self.old { piece = self.old.piece ++ bytes.now; whole = whole }) }
        ensures err { OnErr result (self.new ≡ self.old) }
    {
        self.piece.extend_from_slice(bytes)?;
        self.inside = inside;
        self.whole = whole;
        Ok(())
    }

    /// Refuses the stream from here on.
    fn fail(&mut self, fault: PieceFault) -> Fed
        requires { self.old.fault ≡ None }
        ensures answer { result ≡ Fed.Bad fault }
        ensures fault { self.new ≡ record self.old { fault = Some fault } }
    {
        self.fault = Some(fault);
        Fed::Bad(fault)
    }
}

/// Finds the first line feed outside quotes in bytes that begin inside quotes, or outside.
fn find_line_end(bytes: &[u8], mut inside: bool) -> LineEnd
    ensures { Finds result inside bytes.now }
{
    for (at, &byte) in bytes.iter().enumerate() {
        // Most bytes are above both.
        if byte > QUOTE {
            continue;
        }
        if byte == LINE_FEED && !inside {
            return LineEnd::At(at);
        }
        if byte == QUOTE {
            inside = !inside;
        }
    }
    LineEnd::Beyond { inside }
}

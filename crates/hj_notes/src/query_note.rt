ghost use Rattle.std.specs.Prelude.{◌≡◌};
ghost use Rattle.std.specs.List.{flat_map};
ghost use Rattle.hj_notes.specs.Notes.{refused_note, query_place, query_text, lex_place, lex_text, place_text, wanted_text};
ghost use Rattle.hj_notes.specs.NoteWritten.{NoteWritten};
ghost use Rattle.hj_notes.specs.Parts.{part_text};

use crate::parts::{NOTHING, NotePart, put_parts};
use hj_base::Sink;
use hj_lex::LexFault;
use hj_query::{QueryFault, Wanted};

/// Writes the note of a refused query: its name, its first fault, and the fault's place.
pub fn put_query<N: Sink>(notes: &mut N, name: NotePart, fault: QueryFault)
    ensures { NoteWritten (refused_note (part_text name) fault) (N.told notes.old) (N.told notes.new) (N.refusals notes.old) (N.refusals notes.new) }
{
    let [kind, wanted] = query_parts(fault);
    let [at, place] = place_parts(query_place(fault));
    let parts = [
        name,
        NotePart::Words(": "),
        kind,
        wanted,
        at,
        place,
        NotePart::Words("\n"),
    ];
    put_parts(notes, &parts)
}

/// Spells the fault of a query.
fn query_parts(fault: QueryFault) -> [NotePart; 2]
    ensures { flat_map part_text result ≡ query_text fault }
{
    let kind = match fault {
        QueryFault::Expected(wanted, _) => return [
            NotePart::Words("Expected "),
            wanted_name(wanted),
        ],
        QueryFault::Lex(found) => lex_name(found),
        QueryFault::DoubleColumn(_) => "DoubleColumn",
        QueryFault::UnknownColumn(_) => "UnknownColumn",
        QueryFault::Types(_) => "Types",
        QueryFault::FirstColumn(_) => "FirstColumn",
        QueryFault::WindowRange(_) => "WindowRange",
        QueryFault::SlackRange(_) => "SlackRange",
        QueryFault::QuietRange(_) => "QuietRange",
        QueryFault::TooDeep(_) => "TooDeep",
        QueryFault::TooManyColumns(_) => "TooManyColumns",
        QueryFault::TooLong => "TooLong",
        QueryFault::Memory => "Memory",
    };
    [NotePart::Words(kind), NOTHING]
}

/// Names the fault of a token.
fn lex_name(fault: LexFault) -> &'static str
    ensures { result.now ≡ lex_text fault }
{
    match fault {
        LexFault::BadByte(_) => "BadByte",
        LexFault::OpenText(_) => "OpenText",
        LexFault::NumberRange(_) => "NumberRange",
        LexFault::Memory => "Memory",
    }
}

/// Names what a query's text has to go on with.
fn wanted_name(wanted: Wanted) -> NotePart
    ensures { part_text result ≡ wanted_text wanted }
{
    NotePart::Words(match wanted {
        Wanted::LeftWord => "LeftWord",
        Wanted::RightWord => "RightWord",
        Wanted::OpenParen => "OpenParen",
        Wanted::CommaOrClose => "CommaOrClose",
        Wanted::ColumnName => "ColumnName",
        Wanted::ColumnKind => "ColumnKind",
        Wanted::WindowWord => "WindowWord",
        Wanted::WindowSide => "WindowSide",
        Wanted::WindowKind => "WindowKind",
        Wanted::Number => "Number",
        Wanted::OnWord => "OnWord",
        Wanted::OfWord => "OfWord",
        Wanted::Dot => "Dot",
        Wanted::Term => "Term",
        Wanted::Comparison => "Comparison",
        Wanted::CloseParen => "CloseParen",
        Wanted::End => "End",
    })
}

/// Gives the place of a fault in the text of a query, in bytes from 0; None where it has none.
fn query_place(fault: QueryFault) -> Option<usize>
    ensures { result ≡ query_place fault }
{
    match fault {
        QueryFault::Lex(found) => lex_place(found),
        QueryFault::Expected(_, place)
        | QueryFault::DoubleColumn(place)
        | QueryFault::UnknownColumn(place)
        | QueryFault::Types(place)
        | QueryFault::FirstColumn(place)
        | QueryFault::WindowRange(place)
        | QueryFault::SlackRange(place)
        | QueryFault::QuietRange(place)
        | QueryFault::TooDeep(place)
        | QueryFault::TooManyColumns(place) => Some(place),
        QueryFault::TooLong | QueryFault::Memory => None,
    }
}

/// Gives the place of a token's fault, in bytes from 0; None where it has none.
fn lex_place(fault: LexFault) -> Option<usize>
    ensures { result ≡ lex_place fault }
{
    match fault {
        LexFault::BadByte(place) | LexFault::OpenText(place) | LexFault::NumberRange(place) => {
            Some(place)
        }
        LexFault::Memory => None,
    }
}

/// Spells a place.
fn place_parts(place: Option<usize>) -> [NotePart; 2]
    ensures { flat_map part_text result ≡ place_text place }
{
    match place {
        Some(place) => [NotePart::Words(" at "), NotePart::Number(place as u64)],
        None => [NOTHING, NOTHING],
    }
}

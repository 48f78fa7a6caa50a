//! Queries that are checked, and the words of the command line.
use crate::cases::{JOIN, run_all, run_once};

/// Queries that are checked.
const CHECKS: &str = "\
;left (ts int, k int) right (ts int, k int) window left rows 1 window right rows 1 on (l.k=r.k);?;?;\
left (ts int, k int)/right (ts int, k int)/window left rows 1/window right rows 1/on l.k = r.k/;;0
;left (ts int, k int) right (ts int, k int) window left rows 1 window right rows 1 on l.k + 1 = r.k;?;?;\
left (ts int, k int)/right (ts int, k int)/window left rows 1/window right rows 1/on l.k + 1 = r.k/;;0
;left (ts int, k int) right (ts int, k int) window left rows 1 window right rows 1 on l.k = r.z;?;?;;\
query: UnknownColumn at 93/;2
;left (ts int, k int) right (ts int, k int) window left rows 1 window right rows 1 on l.k = 'a';?;?;;\
query: Types at 85/;2
;left (ts int, ts int);?;?;;query: DoubleColumn at 14/;2
;left (k int);?;?;;query: FirstColumn at 6/;2
;12ab;?;?;;query: BadByte at 2/;2
;?;?;?;;source: query/;4
read query 1;12ab;?;?;;source: query/;4";

/// What a query has to go on with, and faults of its tokens.
const WANTED: &str = "\
;;?;?;;query: Expected LeftWord at 0/;2
;left;?;?;;query: Expected OpenParen at 4/;2
;left (;?;?;;query: Expected ColumnName at 6/;2
;left (ts;?;?;;query: Expected ColumnKind at 8/;2
;left (ts int;?;?;;query: Expected CommaOrClose at 12/;2
;left (ts int);?;?;;query: Expected RightWord at 13/;2
;left (ts int) right (ts int);?;?;;query: Expected WindowWord at 28/;2
;left (ts int) right (ts int) window;?;?;;query: Expected WindowSide at 35/;2
;left (ts int) right (ts int) window left;?;?;;query: Expected WindowKind at 40/;2
;left (ts int) right (ts int) window left rows;?;?;;query: Expected Number at 45/;2
;left (ts int) right (ts int) window left rows 1 window right rows 1;?;?;;query: Expected OnWord at 67/;2
;left (ts int) right (ts int) window left rows 1 window right rows 1 on;?;?;;query: Expected Term at 70/;2
;left (ts int) right (ts int) window left rows 1 window right rows 1 on l;?;?;;query: Expected Dot at 72/;2
;left (ts int) right (ts int) window left rows 1 window right rows 1 on l.ts;?;?;;query: Expected Comparison at 75/;2
;left (ts int) right (ts int) window left rows 1 window right rows 1 on l.ts within 1;?;?;;\
query: Expected OfWord at 84/;2
;left (ts int) right (ts int) window left rows 1 window right rows 1 on (l.ts = 1;?;?;;\
query: Expected CloseParen at 80/;2
;left (ts int) right (ts int) window left rows 1 window right rows 1 on l.ts = 1 );?;?;;query: Expected End at 80/;2
;left (ts int) right (ts int) window left rows 1 window right rows 1 on l.ts = 'a;?;?;;query: OpenText at 78/;2
;left (ts int) right (ts int) window left rows 0;?;?;;query: WindowRange at 46/;2
;left (ts int) right (ts int) window left rows 1 window right rows 1 slack 4611686018427387905;?;?;;query: SlackRange at 74/;2
;left (ts int) right (ts int) window left rows 1 window right rows 1 quiet 1000001;?;?;;query: QuietRange at 74/;2
;99999999999999999999;?;?;;query: NumberRange at 0/;2";

#[test]
fn checks_queries(rt: HostRuntime) {
    run_all(&rt, rt.alloc(), &["check query"], CHECKS);
    run_once(&rt, rt.alloc(), &["check query"], WANTED);
}

/// Texts as long as a query may be, and longer ones; `LONG` stands for 65,536 blanks.
const TEXTS: &str = "\
;LONG;;;;query: Expected LeftWord at 65536/;2
;LONG ;;;;query: TooLong/;2";

#[test]
fn bounds_the_text_of_a_query(rt: HostRuntime) {
    let long = " ".repeat(rt.alloc(), 65_536).expect(&rt, "memory");
    let texts = TEXTS
        .replace(rt.alloc(), "LONG", &long)
        .expect(&rt, "memory");
    run_once(&rt, rt.alloc(), &["check query", JOIN], &texts);
}

/// Words that are no order: nothing is written but the usage.
const REFUSED: &str = "\
;12ab;1,7/;1,7/;;usage: equi W LEFT RIGHT | join [--cores N] [--threads N] [--flight N] [--max-events N] \
[--schedule SEED] QUERY LEFT RIGHT | check QUERY | gen N KEYS SEED W \
| raw [--cores N] [--threads N] [--flight N] [--max-events N] QUERY LEFT RIGHT \
| trace [--cores N] [--flight N] [--max-events N] [--schedule SEED] QUERY LEFT RIGHT \
| verify [--cores N] [--flight N] [--max-events N] QUERY LEFT RIGHT TRACE OUTPUT \
| twice [--cores N] [--threads N] [--flight N] [--max-events N] [--schedule SEED] QUERY LEFT RIGHT QUERY THIRD/;1";

#[test]
fn refuses_words(rt: HostRuntime) {
    let refused = [
        "",
        "equi 0 left right",
        "equi 1000001 left right",
        "equi 1 left",
        "equi -1 left right",
        "join query left",
        "join --cores 65 query left right",
        "join --schedule 3 query left right",
        "join --schedule 3 --threads 1 query left right",
        "join --cores 2 --cores 2 query left right",
        "join --max-events 0 query left right",
        "check -a",
        "gen 1 0 1 1",
        "gen 1 1 1",
    ];
    run_once(&rt, rt.alloc(), &refused, REFUSED);
}

#[test]
fn takes_words(rt: HostRuntime) {
    let pair = ";on l.k = r.k;1,7/;2,7/;1,7,2,7/;;0";
    let taken = [
        "equi 1000000 left right",
        "equi 10 -- left right",
        "join --cores=2 -- query left right",
        "join query left right --cores 2",
    ];
    run_once(&rt, rt.alloc(), &taken, pair);
    let named_with_a_dash = ";on l.k = r.k;1,7/;2,7/;;source: left/;4";
    run_once(
        &rt,
        rt.alloc(),
        &["join --cores=2 -- query -a right"],
        named_with_a_dash,
    );
}

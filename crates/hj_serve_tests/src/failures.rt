//! How runs end where what they read or write fails.
use crate::cases::{ALONE, EQUI, THREE, run_once};

/// Starts, reads and writes that fail.
const FAILURES: &str = "\
start left;on l.k = r.k;1,7/3,7/;2,7/;;source: left/;4
start right;on l.k = r.k;1,7/3,7/;2,7/;;source: right/;4
read left 1;on l.k = r.k;1,7/3,7/;2,7/;;source: left/;4
read left 2;on l.k = r.k;1,7/3,7/;2,7/;;source: left/;4
read left 3;on l.k = r.k;1,7/3,7/;2,7/;1,7,2,7/3,7,2,7/;source: left/;4
read right 1;on l.k = r.k;1,7/3,7/;2,7/;;source: right/;4
read right 2;on l.k = r.k;1,7/3,7/;2,7/;1,7,2,7/;source: right/;4
write 1;on l.k = r.k;1,7/3,7/;2,7/;;sink/;5
write 2;on l.k = r.k;1,7/3,7/;2,7/;1,7,2,7/;sink/;5
write 2,read left 3;on l.k = r.k;1,7/3,7/;2,7/;1,7,2,7/;sink/;5
write 3;on l.k = r.k;1,7/3,7/;2,7/;1,7,2,7/3,7,2,7/;;0
note 1,read left 3;on l.k = r.k;1,7/3,7/;2,7/;1,7,2,7/3,7,2,7/;;4";

/// Left streams of two rows, cut behind each byte.
const CUT: &str = "\
;on l.k = r.k;;2,7/;;;0
;on l.k = r.k;1;2,7/;;left record 1: FieldCount 1/;3
;on l.k = r.k;1,;2,7/;;left record 1: NotNumber column 2/;3
;on l.k = r.k;1,7;2,7/;1,7,2,7/;;0
;on l.k = r.k;1,7/;2,7/;1,7,2,7/;;0
;on l.k = r.k;1,7/3;2,7/;;left record 2: FieldCount 1/;3
;on l.k = r.k;1,7/3,;2,7/;;left record 2: NotNumber column 2/;3
;on l.k = r.k;1,7/3,7;2,7/;1,7,2,7/3,7,2,7/;;0
;on l.k = r.k;1,7/3,7/;2,7/;1,7,2,7/3,7,2,7/;;0";

#[test]
fn ends_where_the_outside_fails(rt: HostRuntime) {
    run_once(&rt, rt.alloc(), &[EQUI, ALONE, THREE], FAILURES);
    let query = "start query;on l.k = r.k;1,7/3,7/;2,7/;;source: query/;4";
    run_once(&rt, rt.alloc(), &[ALONE, THREE], query);
}

#[test]
fn reads_a_stream_to_where_it_is_cut(rt: HostRuntime) {
    run_once(&rt, rt.alloc(), &[EQUI, ALONE, THREE], CUT);
}

/// Runs of each status, up to a limit of three events, whose note is refused.
const UNNOTED: &str = "\
note 1;on l.k = r.k;1,7/3,7/;2,7/;1,7,2,7/3,7,2,7/;;0
note 1;12ab;1,7/;1,7/;;;2
note 1;on l.k = r.k;1,7/x,7/;2,7/;;;3
note 1,start left;on l.k = r.k;1,7/3,7/;2,7/;;;4
note 1,write 2;on l.k = r.k;1,7/3,7/;2,7/;1,7,2,7/;;5
note 1;on l.k = r.k;1,7/3,7/4,7/;2,7/;1,7,2,7/3,7,2,7/;;7";

#[test]
fn keeps_the_status_where_the_note_is_refused(rt: HostRuntime) {
    let commands = [
        "join --max-events 3 query left right",
        "join --max-events 3 --threads 0 query left right",
    ];
    run_once(&rt, rt.alloc(), &commands, UNNOTED);
    let no_order = "note 1;on l.k = r.k;1,7/;2,7/;;;1";
    run_once(&rt, rt.alloc(), &["join query left"], no_order);
}

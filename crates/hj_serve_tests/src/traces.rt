//! What the check of a trace and an output says, and how a trace ends where it can't be written.
use crate::cases::{run_all, run_once};

const CHECK: &str = "verify --cores 1 query left right second third";

/// Two whole runs of one core over no rows, and what breaks a rule.
const CHECKS: &str = "\
;on l.k = r.k;;;;;0;\
A,-,CloseR,CloseL,-/C0L,CloseL,-,CloseL,-/C0R,CloseR,CloseR,-,Ended/PL,CloseR,-,-,-/PR,CloseL,-,-,-/K0,Ended,-,-,-/;
;on l.k = r.k;;;;;0;\
A,-,CloseR,CloseL,-/C0R,CloseR,CloseR,-,-/PL,CloseR,-,-,-/C0L,CloseL,-,CloseL,Ended/K0,Ended,-,-,-/PR,CloseL,-,-,-/;
;on l.k = r.k;x,7/;;;left record 1: NotNumber column 1/;3;\
A,-,CloseR,CloseL,-/C0L,CloseL,-,CloseL,-/C0R,CloseR,CloseR,-,Ended/PL,CloseR,-,-,-/PR,CloseL,-,-,-/K0,Ended,-,-,-/;
;on l.k = r.k;;;;trace line 6: Early/;8;\
A,-,CloseR,CloseL,-/C0L,CloseL,-,CloseL,-/C0R,CloseR,CloseR,-,Ended/PL,CloseR,-,-,-/PR,CloseL,-,-,-/;
;on l.k = r.k;;;;trace line 7: Late/;8;\
A,-,CloseR,CloseL,-/C0L,CloseL,-,CloseL,-/C0R,CloseR,CloseR,-,Ended/PL,CloseR,-,-,-/PR,CloseL,-,-,-/K0,Ended,-,-,-/K0,Ended,-,-,-/;
;on l.k = r.k;;;;trace line 6: NotEnabled/;8;\
A,-,CloseR,CloseL,-/C0L,CloseL,-,CloseL,-/C0R,CloseR,CloseR,-,Ended/PL,CloseR,-,-,-/PR,CloseL,-,-,-/PL,CloseR,-,-,-/;
;on l.k = r.k;;;;trace line 6: Form/;8;\
A,-,CloseR,CloseL,-/C0L,CloseL,-,CloseL,-/C0R,CloseR,CloseR,-,Ended/PL,CloseR,-,-,-/PR,CloseL,-,-,-/K0/;
;on l.k = r.k;;;;trace line 6: Text/;8;\
A,-,CloseR,CloseL,-/C0L,CloseL,-,CloseL,-/C0R,CloseR,CloseR,-,Ended/PL,CloseR,-,-,-/PR,CloseL,-,-,-/K0,Ended,-,-,-;
;on l.k = r.k;;;;output byte 0/;8;\
A,-,CloseR,CloseL,-/C0L,CloseL,-,CloseL,-/C0R,CloseR,CloseR,-,Ended/PL,CloseR,-,-,-/PR,CloseL,-,-,-/K0,Ended,-,-,-/;1,7,2,7/";

#[test]
fn checks_traces(rt: HostRuntime) {
    run_all(&rt, rt.alloc(), &[CHECK], CHECKS);
}

/// Starts and reads that fail. The output is looked at behind the whole trace, where no pair is due before.
const FAILURES: &str = "\
start trace;on l.k = r.k;;;;source: trace/;4;\
A,-,CloseR,CloseL,-/C0L,CloseL,-,CloseL,-/C0R,CloseR,CloseR,-,Ended/PL,CloseR,-,-,-/PR,CloseL,-,-,-/K0,Ended,-,-,-/;
start output;on l.k = r.k;;;;source: output/;4;\
A,-,CloseR,CloseL,-/C0L,CloseL,-,CloseL,-/C0R,CloseR,CloseR,-,Ended/PL,CloseR,-,-,-/PR,CloseL,-,-,-/K0,Ended,-,-,-/;
read left 1;on l.k = r.k;;;;source: left/;4;\
A,-,CloseR,CloseL,-/C0L,CloseL,-,CloseL,-/C0R,CloseR,CloseR,-,Ended/PL,CloseR,-,-,-/PR,CloseL,-,-,-/K0,Ended,-,-,-/;
read trace 1;on l.k = r.k;;;;source: trace/;4;\
A,-,CloseR,CloseL,-/C0L,CloseL,-,CloseL,-/C0R,CloseR,CloseR,-,Ended/PL,CloseR,-,-,-/PR,CloseL,-,-,-/K0,Ended,-,-,-/;
read trace 3;on l.k = r.k;;;;source: trace/;4;\
A,-,CloseR,CloseL,-/C0L,CloseL,-,CloseL,-/C0R,CloseR,CloseR,-,Ended/PL,CloseR,-,-,-/PR,CloseL,-,-,-/K0,Ended,-,-,-/;
read output 1;on l.k = r.k;;;;source: output/;4;\
A,-,CloseR,CloseL,-/C0L,CloseL,-,CloseL,-/C0R,CloseR,CloseR,-,Ended/PL,CloseR,-,-,-/PR,CloseL,-,-,-/K0,Ended,-,-,-/;
read output 1;on l.k = r.k;;;;trace line 6: Early/;8;\
A,-,CloseR,CloseL,-/C0L,CloseL,-,CloseL,-/C0R,CloseR,CloseR,-,Ended/PL,CloseR,-,-,-/PR,CloseL,-,-,-/;";

#[test]
fn ends_where_a_trace_or_an_output_fails(rt: HostRuntime) {
    run_once(&rt, rt.alloc(), &[CHECK], FAILURES);
    let refused = "write 1;on l.k = r.k;;;;sink/;5";
    run_once(&rt, rt.alloc(), &["trace query left right"], refused);
}

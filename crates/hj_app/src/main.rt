//! Joins two streams of rows under a query, and writes each pair once, in one order, or as it is met; joins these pairs with a third
//! stream; writes the steps of a join, and checks such steps and an output; writes the canonical text of a query; and sums up the join
//! of two streams that a seed determines.
#![tactic(auto)]

use hj_base::OpenGate;
use hj_net::{Output, RealOutside, RealSink};
use hj_notes::{Note, Reason};
use hj_serve::{Parties, serve};
use std::env;
use std::io::{ErrorKind, Write};
use std::process::ExitCode;
use std::sync::Wait;
use std::thread::Threads;
use std::time::Clock;

/// Serves the words after the program's name, over files, standard output and standard error.
fn main(rt: HostRuntime) -> ExitCode {
    let mut errors = RealSink::new(rt.stderr());
    let status = match run(rt, &rt) {
        Ok(status) => status,
        Err(note) => {
            note.write(&mut errors);
            note.status()
        }
    };
    ExitCode::from(status)
}

/// Serves the words and hands on the output. Returns the status, or a note that wasn't written yet. `threads` may start threads.
fn run<T: Threads + Wait + Clock + Sync>(rt: HostRuntime, threads: &T) -> Result<u8, Note> {
    let words = words_after_name(&rt)?;
    let output = Output::new(rt.alloc(), rt.stdout())?;
    let status = serve_over(rt, threads, &words, &output);
    // Where output was refused, no note was written after it.
    output.hand_on().map_err(|_| Note::Sink)?;
    Ok(status)
}

/// Serves the words over files and ports, beside this output.
fn serve_over<T: Threads + Wait + Clock + Sync, W: Write + Drop>(
    rt: HostRuntime,
    threads: &T,
    words: &[String],
    output: &Output<W>,
) -> u8 {
    let alloc = rt.alloc();
    let mut out = RealSink::output(output);
    let mut notes = RealSink::errors(output, rt.stderr());
    let mut outside = RealOutside::new(rt, alloc, output);
    let parties = Parties {
        rt: threads,
        gate: &OpenGate,
    };
    let served = serve(alloc, words, &parties, &mut outside, &mut out, &mut notes);
    let status = served.status;
    // Both are dropped by a call, so that how their parts are let go is proved once for each type.
    drop(served);
    drop(outside);
    status
}

/// Returns the words after the program's name, or the note that says why they couldn't be read.
fn words_after_name(rt: &HostRuntime) -> Result<Vec<String>, Note> {
    let words = match env::args(rt) {
        Ok(words) => words,
        Err(error) if error.kind() == ErrorKind::OutOfMemory => return Err(Note::Memory),
        // A word isn't text.
        Err(_) => return Err(Note::Usage),
    };
    words.skip(1).collect(rt.alloc()).map_err(|_| Note::Memory)
}

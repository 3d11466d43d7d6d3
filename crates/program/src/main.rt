//! The program `arrowstore`: passes the process's arguments, streams and files to the library of that name, and exits with its status. On a
//! terminal, work that takes more than a second shows a line of progress.
//!
//! Status 0 means done, 1 refused, with a line `refused CODE NAME ..` on standard error, or done in part, and 2 wrong arguments. The line is left out
//! if only the output failed of a command that changes nothing, and its reader is gone, as when `head` has its lines. On a terminal a second line says
//! what to do, and a line may say how many rows a command has brought. With `ARROWSTORE_ADVICE=1` in the environment these lines are written everywhere,
//! and the second one of a refusal begins with a word for scripts.
#![tactic(auto)]

mod progress;

use arrowstore::{
    Audience, Failures, KeptStart, ShownOutput, WatchedOutput, asks_csv, asks_to_wait,
    report_stream_to_terminal, report_unreadable_arguments, run_with_files, writes_stream,
};
use progress::{ProgressFiles, ProgressLine, ProgressReader, ProgressWriter, Target};
use std::env::{self, Env};
use std::fs;
use std::io::{self, IsTerminal};
use std::process::ExitCode;

fn main(rt: HostRuntime) -> ExitCode {
    // Asked before a file is opened, which may take the descriptor of a closed stream.
    let reader = Audience::of(&rt.stderr());
    let line = ProgressLine::begin(&rt, rt.stderr(), reader);
    let audience = audience_of(&rt, reader);
    let target = Target::of_output(&rt);
    let failures = Failures::new();
    let mut errors = ProgressWriter::new(rt.stderr(), line.as_ref(), Target::Other);
    let ended = match arguments_of(&rt) {
        Ok(arguments) if is_stream_shown(&rt, &arguments) => report_stream_to_terminal(&mut errors),
        Ok(arguments) => run_with_files(
            &ProgressFiles::new(
                &rt,
                line.as_ref(),
                noted_at(audience, &failures),
                target,
                asks_to_wait(arguments.as_slice()),
                arguments.as_slice(),
            ),
            arguments.as_slice(),
            &mut KeptStart::new(
                rt.alloc(),
                ProgressReader::new(rt.reader(), line.as_ref()),
                audience,
                asks_csv(arguments.as_slice()),
                !is_input_a_file(&rt),
            ),
            &mut WatchedOutput::new(ShownOutput::new(
                ProgressWriter::new(rt.stdout(), line.as_ref(), target),
                rt.stdout().is_terminal(),
            )),
            &mut errors,
            &failures,
            audience,
        ),
        Err(error) => report_unreadable_arguments(&error, &mut errors, audience),
    };
    if let Some(line) = &line {
        line.clear();
    }
    ExitCode::from(ended.code())
}

// Returns for whom to report: a program that reads standard error may ask for what a person at a terminal is told, after a word for programs.
fn audience_of(rt: &HostRuntime, reader: Audience) -> Audience {
    // The variable is read into a buffer, since `env::var` takes memory.
    let mut value = [0; 2];
    match rt.var("ARROWSTORE_ADVICE", &mut value) {
        Ok(1) if value[0] == b'1' => Audience::Script,
        _ => reader,
    }
}

// Returns whether standard input is a regular file, which has all its bytes.
fn is_input_a_file(rt: &HostRuntime) -> bool {
    match fs::metadata(rt, "/dev/stdin") {
        Ok(found) => found.is_file(),
        Err(_) => false,
    }
}

// Returns where failed calls on files are noted: only a second line shows them.
fn noted_at(audience: Audience, failures: &Failures) -> Option<&Failures> {
    if audience.is_advised() {
        Some(failures)
    } else {
        None
    }
}

// Returns whether a stream would be written to a terminal, which shows its bytes as whatever they mean to it.
fn is_stream_shown(rt: &HostRuntime, arguments: &[String]) -> bool {
    rt.stdout().is_terminal() && writes_stream(rt.alloc(), arguments)
}

fn arguments_of(rt: &HostRuntime) -> io::Result<Vec<String>> {
    Ok(env::args(rt)?.collect(rt.alloc())?)
}

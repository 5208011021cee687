// What is told on standard error of a read or a write that failed.

#![tactic(auto)]

use std::io;
use std::io::Error;

// The system's words in an error's text, which ends in the error's number.
fn words(text: &str) -> &str {
    match text.split_once(" (os error ") {
        Some((words, _)) => words,
        None => text,
    }
}

fn tell_line(rt: &HostRuntime, what: &str, why: Error) -> io::Result<()> {
    let text = format!(in rt.alloc(); "{why}")?;
    let reason = words(text.as_str());
    eprintln!(rt; "{what}: {reason}")
}

// One line: what failed, a colon, and why. Where standard error does not take it, nothing is told.
pub fn tell(rt: &HostRuntime, what: &str, why: Error) {
    let _ = tell_line(rt, what, why);
}

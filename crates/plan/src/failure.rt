// What the program says of a read or a write that failed.
use std::io::Write;
use std::{fmt, io};

// Room for the system's words for a failure.
const REASON_BYTES: usize = 256;

// A stream that failed, with the system's error.
#[derive(Clone, Copy)]
pub enum Failure {
    Input(io::Error),
    Output(io::Error),
}

// The system's words for a failure, without the number that std puts behind them. They go into lent bytes: there is no
// heap for a String.
fn reason(error: io::Error, words: &mut [u8; REASON_BYTES]) -> &str {
    let mut room = &mut words[..];
    let _ = write!(room, "{error}");
    let text = str::from_utf8(&words[..]).unwrap_or("");
    match text.split_once(" (os error ") {
        Some((reason, _)) => reason,
        None => text.trim_end_matches('\0'),
    }
}

impl fmt::Display for Failure {
    fn fmt<W: fmt::Write>(&self, f: &mut fmt::Formatter<W>) -> fmt::Result {
        let (stream, error) = match self {
            Failure::Input(error) => ("standard input", *error),
            Failure::Output(error) => ("standard output", *error),
        };
        let mut words = [0u8; REASON_BYTES];
        write!(f, "{stream}: {}", reason(error, &mut words))
    }
}

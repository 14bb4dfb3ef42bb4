// Prints the plan of the request in a word file: the file on standard input, the listing on standard output. A read
// or a write that fails is told on standard error with the system's reason, and ends the program with status 1; after
// a failed read nothing goes to standard output.
#![tactic(auto)]

mod failure;

ghost use Rattle.std.specs.Prelude.{◌≡◌, List, ℕ, ◌-◌, ◌≤◌, length, take};
ghost use Rattle.printed.specs.Text.{listing_bytes, listing};
ghost use Rattle.plan.specs.Read.{BeginsWith, ReadWithin};

use crate::failure::Failure;
use model::limits::MAX_FILE_BYTES;
use printed::LISTING_BYTES;
use std::io;
use std::io::{Read, Stdin, Stdout};
use std::process::ExitCode;

// One byte more than a file may have is enough to refuse it, so no more is read.
const INPUT_BYTES: usize = MAX_FILE_BYTES + 1;

// Reads once, to behind the bytes that the list has already, which it keeps; no bytes at the end of the input.
fn read_on(mut stdin: Stdin, file: &mut [u8], have: usize) -> io::Result<usize>
    requires { have ≤ length file.old }
    ensures kept { take have file.new ≡ take have file.old }
    ensures within { ReadWithin result (length file.old - have) }
{
    let part = &mut file[have..];
    stdin.read(part)
}

// Reads standard input to its end, or until the list is full, and answers how many bytes that were. List and number
// stay two: what a file begins with is told by the room of the list (BeginsWith), which a part of it does not have.
fn read_input(stdin: Stdin, file: &mut [u8; INPUT_BYTES]) -> io::Result<usize>
    ensures { ReadWithin result (length file.new) }
{
    let mut have: usize = 0;
    // No iterator says how often the input has to be asked: std's readers that go on to its end want a heap.
    while have < file.len() {
        let n = read_on(stdin, file, have)?;
        if n == 0 {
            break;
        }
        have += n;
    }
    Ok(have)
}

// Writes the listing of a file whose first bytes were read, as many as the list has room for, n of them, into a text
// of just the room of a listing.
#[tactic(auto, using(crate::proofs::Read::listing_of_read))]
fn write_listing(file: &[u8; INPUT_BYTES], n: usize, text: &mut [u8; LISTING_BYTES]) -> usize
    requires { n ≤ length file.now }
    ensures within { result ≤ length text.new }
    ensures listed { (s : List ℕ) → BeginsWith s file.now n → take result text.new ≡ listing s }
    ensures room { length text.new ≡ listing_bytes }
{
    let list = &file[..];
    listing::list(&list[0..n], text)
}

// Hands a text to standard output: the listing of the file that was read.
fn hand_over(stdout: Stdout, text: &[u8], file: &[u8; INPUT_BYTES], n: usize) -> io::Result<()>
    requires { (s : List ℕ) → BeginsWith s file.now n → text.now ≡ listing s }
{
    stdout.write_all(text)
}

// Prints the listing of a file whose first bytes were read.
fn show(stdout: Stdout, file: &[u8; INPUT_BYTES], n: usize) -> io::Result<()>
    requires { n ≤ length file.now }
{
    // Fixed memory, with room for the longest listing: there is no heap.
    let mut text = [0u8; LISTING_BYTES];
    let r = write_listing(file, n, &mut text);
    hand_over(stdout, &text[0..r], file, n)
}

// Reads the file and prints its listing.
fn run(rt: &HostRuntime) -> Result<(), Failure> {
    // Fixed memory, with room for the longest file and a byte more: there is no heap.
    let mut file = [0u8; INPUT_BYTES];
    let n = read_input(rt.stdin(), &mut file).map_err(Failure::Input)?;
    show(rt.stdout(), &file, n).map_err(Failure::Output)
}

fn main(rt: HostRuntime) -> ExitCode {
    if let Err(failure) = run(&rt) {
        let _ = rt.stderr().println(format_args!("plan: {failure}"));
        return ExitCode::FAILURE;
    }
    ExitCode::SUCCESS
}

// The program: a sheet from standard input, its plan or its refusal to standard output.
#![tactic(auto)]

mod answer;
mod input;

use compile::MOST_BYTES;
use std::io;
use std::io::{ErrorKind, Read, Write};

// Where a read fails nothing is written: what came before it may be a part of a sheet.
fn run<R: Read, W: Write>(
    input: &mut R,
    output: &mut W,
    sheet: &mut [u8],
    more: &mut [u8],
    plan: &mut [u8; MOST_BYTES],
) -> io::Result<()> {
    let Some(n) = input::fill(input, sheet) else {
        return Ok(());
    };
    let Some(k) = input::past(input, n, more) else {
        return Ok(());
    };
    answer::give(output, &sheet[..n], &more[..k], plan)
}

// Where nobody reads what is written, it ends with that error; where writing fails otherwise, nothing is said of it.
fn main(rt: HostRuntime) -> io::Result<()> {
    let mut sheet = [0u8; MOST_BYTES];
    let mut more = [0u8; 1];
    let mut plan = [0u8; MOST_BYTES];
    let written = run(
        &mut rt.stdin(),
        &mut rt.stdout(),
        &mut sheet,
        &mut more,
        &mut plan,
    );
    match written {
        Err(error) if error.kind() == ErrorKind::BrokenPipe => Err(error),
        _ => Ok(()),
    }
}

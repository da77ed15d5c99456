// Reports each file of a list: standard input has a file a line, in hexadecimal.
#![tactic(auto)]

ghost use Rattle.std.specs.Prelude.{◌<◌};

use dossier::{MIN_BUFFER, report};
use std::alloc::{AllocError, Global};
use std::io;
use std::io::{BufRead, BufReader, Write};

/// Prints the line of each file.
fn main(rt: HostRuntime) -> anyhow::Result<()> {
    for text in BufReader::new(rt.alloc(), rt.stdin())?.lines(rt.alloc()) {
        let bytes = decoded(rt.alloc(), text?.as_bytes())?;
        print_line(&rt, &bytes)?;
    }
    Ok(())
}

/// Prints the line of one file.
fn print_line(rt: &HostRuntime, bytes: &[u8]) -> anyhow::Result<()> {
    let mut buffer = [0; MIN_BUFFER];
    let length = report(rt.alloc(), bytes, &mut buffer)?;
    rt.stdout().write_all(&buffer[..length])?;
    Ok(())
}

/// The bytes that hexadecimal digits stand for, two digits a byte; anything else counts as the digit 0.
fn decoded(heap: Global, text: &[u8]) -> Result<Vec<u8>, AllocError> {
    let (pairs, _) = text.as_chunks::<2>();
    pairs
        .iter()
        .map(|[high, low]| 16 * digit(*high) + digit(*low))
        .collect(heap)
}

/// The value of a hexadecimal digit.
fn digit(byte: u8) -> u8
    ensures { result < 16 }
{
    match byte {
        b'0'..=b'9' => byte - b'0',
        b'a'..=b'f' => byte - b'a' + 10,
        _ => 0,
    }
}

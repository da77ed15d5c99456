// Judges the dossier on standard input, and prints the line of its verdict.
#![tactic(auto)]

use dossier::{MIN_BUFFER, report};
use std::io;
use std::io::{Read, Write};

/// One byte more than a file may have, so that a longer one is seen to be too long.
const MOST_READ: u64 = 65_536;

/// Reads, judges and prints. Where a read fails or there is no memory, nothing is printed.
fn main(rt: HostRuntime) -> anyhow::Result<()> {
    let bytes = read_input(&rt)?;
    let mut buffer = [0; MIN_BUFFER];
    let length = report(rt.alloc(), &bytes, &mut buffer)?;
    rt.stdout().write_all(&buffer[..length])?;
    Ok(())
}

/// Standard input, up to one byte more than a file may have.
fn read_input(rt: &HostRuntime) -> io::Result<Vec<u8>> {
    let mut bytes = Vec::new(rt.alloc());
    rt.stdin().take(MOST_READ).read_to_end(&mut bytes)?;
    Ok(bytes)
}

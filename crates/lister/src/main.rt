// Lists the segment on standard input: one byte more than the longest is asked for, so that a longer one shows.
#![tactic(auto)]

ghost use Rattle.std.specs.Prelude.{◌≤◌, IfOk, length};

use std::io;
use std::io::{Read, Stdin, Write};

// Reads until the buffer is full or the input ends: how many bytes lie at its start.
fn read_full(stdin: &mut Stdin, buffer: &mut [u8]) -> io::Result<usize>
    ensures { IfOk result (λ n. n ≤ length buffer.new) }
{
    let mut n = 0;
    while n < buffer.len() {
        match stdin.read(&mut buffer[n..])? {
            0 => break,
            got => n += got,
        }
    }
    Ok(n)
}

fn main(rt: HostRuntime) -> io::Result<()> {
    let mut input = [0u8; 65537];
    let n = read_full(&mut rt.stdin(), &mut input)?;
    let mut text = [0u8; 65536];
    let listed = listing::list(&input[..n], &mut text);
    rt.stdout().write_all(&text[..listed.written])
}

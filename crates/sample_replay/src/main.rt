// Replays a stored sample of the original crate's answers through the proved library, and prints how many agree.
//
// Standard input holds records, one after the other:
//
//     kind     1 byte: 1 number at 64 bits, 2 filter number, 3 prefixed string, 4 hash list
//     size     u16, little-endian: how many bytes the input has
//     answer   four u64, little-endian: the words of docs/ABI.md
//     input    as many bytes
//
// Each input is read from its place 0 up to its end, and its answer's words are compared with the stored ones.
#![tactic(auto)]

mod kind;
mod little_endian;
mod record;
mod walk;

ghost use Rattle.std.specs.Prelude.{◌≡◌, ◌≤◌, IfOk, length};

use kind::Kind;
use std::io;
use std::io::Read;
use walk::{ReplayCounts, Tally};

// The most bytes of a sample: what follows them is not read.
const MOST: usize = 131_072;

// Reads until the buffer is full or the input ends, and answers how many bytes were put at its start.
fn read_full(input: &mut impl Read, bytes: &mut [u8]) -> io::Result<usize>
    ensures { IfOk result (λ n. n ≤ length bytes.new) }
{
    let mut done = 0;
    // Each read says how many bytes it put, so no range gives the places.
    while done < bytes.len() {
        let n = input.read(&mut bytes[done..])?;
        if n == 0 {
            break;
        }
        done += n;
    }
    Ok(done)
}

// A line for each kind, and one more where the walk stopped before the end of the `n` bytes.
fn report(rt: &impl Print, counts: ReplayCounts, n: usize) -> io::Result<()> {
    for kind in Kind::ALL {
        let Tally { records, agree } = counts.tally(kind);
        println!(rt; "{kind} {records} agree {agree}")?;
    }
    if counts.end < n {
        println!(rt; "bad record at {}", counts.end)?;
    }
    Ok(())
}

fn main(rt: HostRuntime) -> io::Result<()> {
    let mut bytes = [0; MOST];
    let n = read_full(&mut rt.reader(), &mut bytes)?;
    let counts = walk::walk(&bytes[..n]);
    report(&rt, counts, n)
}

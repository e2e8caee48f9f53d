// The program of document 01: eliminates the table on standard input, little-endian words of at most 4,096 records, with a work area and an
// output of 4,096 records each and a limit of 100,000 steps. It prints the outcome (0 or the refusal), the steps, then the count of systems
// or the refusal's record; after an outcome of 0, each written record on a line.
#![tactic(auto)]

use lines::Text;
use std::io;

// One byte more than is accepted is read. The longest text has 4,096 lines of 85 bytes and one of 64; 128 bytes more are free.
fn main(rt: HostRuntime) -> io::Result<()> {
    let mut bytes = [0u8; 65537];
    let mut words = [0u32; 16384];
    let mut work = [0u32; 16384];
    let mut output = [0u32; 16384];
    let mut buffer = [0u8; 348352];
    let n = input::read_full(&mut rt.stdin(), &mut bytes);
    let mut text = Text::new(&mut buffer);
    responses::respond(&bytes[..n], &mut words, &mut work, &mut output, &mut text);
    text.write(&mut rt.stdout())
}

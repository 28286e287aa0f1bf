// The first line of standard input, for the programs that answer one. What is read no contract can say.
#![tactic(auto)]

ghost use Rattle.std.specs.Prelude.{◌≡◌, take};
ghost use Rattle.io.specs.Counts.{IsPrefixLen};

use std::io;
use std::io::Read;

// The first bytes of the input, and how many: one more than a line may have, so that a longer line
// is seen. Fixed memory, since there is no heap.
#[derive(Clone, Copy)]
pub struct Input {
    bytes: [u8; 65],
    count: usize,
    ghost within: { IsPrefixLen count bytes },
}

impl Input {
    // The bytes that were read, where the input itself holds them.
    pub fn read(&self) -> &[u8]
        ensures { (result.now ≡ take self.now.count self.now.bytes) × (result.ref_ptr ≡ self.entry.ref_ptr) }
    {
        &self.bytes[..self.count]
    }
}

// Reads up to the first newline, the end of the input or 65 bytes, a byte at a time, so that what follows stays in the input.
// A read that fails counts as the end.
pub fn read_line(rt: &impl io::Input) -> Input
    ensures { IsPrefixLen result.count result.bytes }
{
    let mut reader = rt.reader();
    let mut bytes: [u8; 65] = [0; 65];
    for count in 0..bytes.len() {
        let mut byte: [u8; 1] = [0; 1];
        if reader.read(&mut byte).unwrap_or(0) == 0 {
            return Input { bytes, count };
        }
        bytes[count] = byte[0];
        if byte[0] == b'\n' {
            return Input {
                bytes,
                count: count + 1,
            };
        }
    }
    let count = bytes.len();
    Input { bytes, count }
}

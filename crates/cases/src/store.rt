// Storing into a buffer that is lent.
ghost use Rattle.std.specs.Prelude.{◌≡◌, ◌≤◌, IfOk, length, slice_set};
ghost use Rattle.cases.specs.Stores.{stored, stored_end};

use std::fs;
use std::io::{Read, Result};
use std::path::AsPath;
use std::rt::Files;

// So many zeros. Its length is said too, so that of a large buffer no proof has to count them.
pub fn zeros<const N: usize>() -> [u8; N]
    ensures { N ≡ length result }
{
    [0; N]
}

// Stores a byte at a place, if the buffer has it.
pub fn put(buffer: &mut [u8], at: usize, b: u8)
    ensures { buffer.new ≡ slice_set buffer.old at b }
{
    if at < buffer.len() {
        buffer[at] = b;
    }
}

// Copies s to a place, if there is room for all of it, and says where the copy ends: where it begins, if there is none.
pub fn put_all(buffer: &mut [u8], at: usize, s: &[u8]) -> usize
    ensures buffer_after { buffer.new ≡ stored buffer.old at s.now }
    ensures value { result ≡ stored_end buffer.old at s.now }
{
    if buffer.len() < at {
        return at;
    }
    if buffer.len() - at < s.len() {
        return at;
    }
    buffer[at..at + s.len()].copy_from_slice(s);
    s.len() + at
}

// Reads until the buffer is full or there is no more to read, since a read may hand out its bytes in pieces, and says how many bytes
// that are.
fn read_full<F: Read>(file: &mut F, buffer: &mut [u8]) -> Result<usize>
    ensures { IfOk result (λ n. n ≤ length buffer.new) }
{
    let mut n = 0;
    while n < buffer.len() {
        let got = file.read(&mut buffer[n..])?;
        if got == 0 {
            break;
        }
        n += got;
    }
    Ok(n)
}

// Reads a file into a buffer, as far as there is room, and says how many bytes that are. Which bytes no contract can say, nor what a read
// leaves behind them.
pub fn load<R: Files, P: AsPath>(rt: &R, path: P, buffer: &mut [u8]) -> Result<usize>
    ensures within { IfOk result (λ n. n ≤ length buffer.new) }
    ensures same_len { length buffer.new ≡ length buffer.old }
{
    let mut file = fs::open(rt, path)?;
    read_full(&mut file, buffer)
}

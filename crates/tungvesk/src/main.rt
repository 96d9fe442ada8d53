// Prints the listing of the tree image on standard input in the plain mode, or the line of its refusal.
#![tactic(auto)]

ghost use Rattle.std.specs.Prelude.{◌≡◌, ◌+◌, ◌<◌, ◌≤◌, IfOk, OnOk, length, take, drop};
ghost use Rattle.std.specs.Io.KnownBytes.{Appends, Consumes, IsAtEnd};
ghost use Rattle.formatter.specs.Program.{response};

use formatter::program::respond;
use numbers::mode::Mode;
use std::io::{Error, Read, Result, Write, writer};
use std::process::ExitCode;

// Room for an image, and for what is printed of it.
const ROOM: usize = 65_536;

// Reads once, behind the first bytes of a buffer, which stay, and says how many bytes were read. None is the end of the input.
fn read_more<R: Read>(input: &mut R, buffer: &mut [u8], at: usize) -> Result<usize>
    requires { at ≤ length buffer.old }
    ensures in_bounds { IfOk result (λ n. at + n ≤ length buffer.old) }
    ensures buffer_unchanged { take at buffer.new ≡ take at buffer.old }
    ensures bytes { IfOk result (λ n. Consumes (R.remaining input.old) (R.remaining input.new) (take n (drop at buffer.new))) }
    ensures end { IfOk result (λ n. n ≡ 0 → at < length buffer.old → IsAtEnd (R.remaining input.new)) }
{
    let got = input.read(&mut buffer[at..])?;
    Ok(got)
}

// Reads until the input ends or the buffer is full, since a pipe hands out its bytes in pieces, and says how many bytes were read. They
// stand at the front of the buffer.
fn read_input<R: Read>(input: &mut R, buffer: &mut [u8]) -> Result<usize>
    ensures in_bounds { IfOk result (λ n. n ≤ length buffer.new) }
    ensures bytes { IfOk result (λ n. Consumes (R.remaining input.old) (R.remaining input.new) (take n buffer.new)) }
    ensures end { IfOk result (λ n. n < length buffer.new → IsAtEnd (R.remaining input.new)) }
{
    let mut n = 0;
    while n < buffer.len() {
        let more = read_more(input, buffer, n)?;
        if more == 0 {
            break;
        }
        n += more;
    }
    Ok(n)
}

// Prints what there is to say of an image.
fn print<W: Write>(output: &mut W, image: &[u8]) -> Result<()>
    ensures { OnOk result (Appends (W.contents output.old) (W.contents output.new) (response Mode.Plain image.now)) }
{
    let mut out = [0u8; ROOM];
    let r = respond(image, Mode::Plain, &mut out);
    let n = r.bytes;
    output.write_all(&out[..n])
}

// Says on standard error what failed, and why.
fn fail(rt: &impl Eprint, what: &str, error: Error) -> ExitCode {
    let _ = eprintln!(rt; "tungvesk: {what}: {error}");
    ExitCode::FAILURE
}

fn main(rt: HostRuntime) -> ExitCode {
    // Of a longer input only as much as fits is taken.
    let mut input = [0u8; ROOM];
    let n = match read_input(&mut rt.stdin(), &mut input) {
        Ok(n) => n,
        Err(error) => return fail(&rt, "standard input", error),
    };
    match print(&mut writer(&rt), &input[..n]) {
        Ok(()) => ExitCode::SUCCESS,
        Err(error) => fail(&rt, "standard output", error),
    }
}

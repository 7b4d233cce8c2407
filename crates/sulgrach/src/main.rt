// The program: a plan on standard input, and on standard output what the check answers and the cells of each point.
#![tactic(auto)]

ghost use Rattle.std.specs.Prelude.{◌≡◌, ◌≢◌, ◌≤◌, IfSome, OnOk, length, take, replicate};
ghost use Rattle.std.specs.Io.KnownBytes.{Appends, Consumes, IsAtEnd};
ghost use Rattle.report.specs.Printed.{printed};

use report::report;
use std::io;
use std::io::{Read, Write};

// The text for an input, at the start of an output that holds every text.
fn text(input: &[u8], out: &mut [u8]) -> usize
    requires { 196608 ≤ length out.old }
    ensures upper_bound { (result ≤ length out.new) × (result ≡ length (take result out.new)) }
    ensures out_value { take result out.new ≡ printed input.now (replicate 16384 0) (replicate 16384 0) }
{
    let mut first = [0u32; 16384];
    let mut second = [0u32; 16384];
    report(input, &mut first, &mut second, out)
}

// Reads until the buffer is full, the input ends or a read fails. Gives how many bytes came, and whether a read failed.
fn read_full<R: Read>(input: &mut R, buffer: &mut [u8]) -> (usize, io::Result<()>)
    ensures within { result.0 ≤ length buffer.new }
    ensures bytes { Consumes (R.remaining input.old) (R.remaining input.new) (take result.0 buffer.new) }
    ensures end { OnOk result.1 (result.0 ≢ length buffer.new → IsAtEnd (R.remaining input.new)) }
{
    let mut done = 0;
    // A `while`, since each read says how far it steps: `read_exact` says nothing of an input that ends before, and clause `bytes` speaks of that too.
    while done < buffer.len() {
        match input.read(&mut buffer[done..]) {
            Ok(0) => return (done, Ok(())),
            Ok(n) => done += n,
            Err(e) => return (done, Err(e)),
        }
    }
    (done, Ok(()))
}

// Reads once and drops what came. Says whether there was something.
fn drop_some<R: Read>(input: &mut R) -> bool {
    let mut buffer = [0u8; 4096];
    input.read(&mut buffer).is_ok_and(|n| n != 0)
}

// Reads what is left of the input, so that whoever writes it can end. The count is one that no run uses up: a proved loop has to end.
fn drop_rest<R: Read>(input: &mut R) {
    for _ in 0..u64::MAX {
        if !drop_some(input) {
            return;
        }
    }
}

// Writes the text for the input. 833 bytes tell that there are over 832. A read that fails counts as the end of the input, and is told once the
// text is written; a write that fails ends it.
fn answer<R: Read, W: Write>(input: &mut R, output: &mut W) -> io::Result<()>
    ensures { OnOk result (IfSome (R.remaining input.old)
        (λ bytes. Appends (W.contents output.old) (W.contents output.new) (printed bytes (replicate 16384 0) (replicate 16384 0)))) }
{
    let mut plan = [0u8; 833];
    let (n, read) = read_full(input, &mut plan);
    if n == 833 {
        drop_rest(input);
    }
    let mut out = [0u8; 196608];
    let end = text(&plan[..n], &mut out);
    output.write_all(&out[..end])?;
    read
}

// The exit status is 0 for every answer, also where a read or a write failed.
fn main(rt: HostRuntime) {
    let _ = answer(&mut rt.stdin(), &mut rt.stdout());
}

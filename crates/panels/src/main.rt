// Prints all panels of the size that is its one argument, a line each; the line of a refusal; or `?` where there is no such argument.
#![tactic(auto)]

ghost use Rattle.std.specs.Prelude.{◌≡◌, ◌≤◌, length, take};

use panel::lines::MOST_BYTES;
use std::env::FillError;
use std::io;
use std::rt::Env;

// An argument has at most 131,071 bytes on Linux.
const ARGUMENT: usize = 131_072;

// The one argument. None or several are as an empty one, which is no number.
fn one_argument(rt: &impl Env, buf: &mut [u8; ARGUMENT]) -> usize
    ensures within { result ≤ length buf.new }
    ensures front { result ≡ length (take result buf.new) }
{
    if let Err(FillError::NotPresent) = rt.arg(2, &mut []) {
        rt.arg(1, buf).unwrap_or(0)
    } else {
        0
    }
}

fn main(rt: HostRuntime) -> io::Result<()> {
    let mut argument = [0u8; ARGUMENT];
    let length = one_argument(&rt, &mut argument);
    let mut out = [0u8; MOST_BYTES];
    let printed = panel::answer(&argument[..length], &mut out);
    rt.write_all(&out[..printed])
}

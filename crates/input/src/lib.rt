// Reads an input into a buffer that its caller has, so that a program needs no memory for what it reads; and opens the files that arguments name.
#![tactic(auto)]

ghost use Rattle.std.specs.Prelude.{ℕ, ◌≡◌, ◌≢◌, ◌<◌, ◌≤◌, ◌↔◌, IfErr, IfOk, IfSome, IsTrue, length, take};
ghost use Rattle.std.specs.IoError.{error_kind};
ghost use Rattle.std.specs.Io.KnownBytes.{Consumes};
ghost use Rattle.limits.specs.Limits.{most_bytes};

use limits::MOST_BYTES;
use std::fs::{File, Files};
use std::io;
use std::io::{ErrorKind, Input, Read};
use std::rt::Env;
use std::str::from_utf8;

// A name has at most 4,095 bytes on Linux.
const LONGEST_NAME: usize = 4_095;

// Reads to the front of the buffer until the buffer is full or the input ends, and answers how many bytes stand there. A read may give fewer bytes
// than there is room for, and one that is interrupted is made again. Nothing says that interruptions end, so the last of 2^64 - 1 reads ends them.
pub fn read_full<R: Read>(input: &mut R, buf: &mut [u8]) -> io::Result<usize>
    ensures within { IfOk result (λ n. n ≤ length buf.new) }
    ensures bytes { IfOk result (λ n. IfSome (R.remaining input.old) (λ xs. take n buf.new ≡ take (length buf.old) xs)) }
    ensures rest { IfOk result (λ n. Consumes (R.remaining input.old) (R.remaining input.new) (take n buf.new)) }
    ensures retried { IfErr result (λ e. error_kind e ≢ ErrorKind.Interrupted) }
{
    let mut filled = 0;
    for _ in 0..u64::MAX {
        if filled == buf.len() {
            return Ok(filled);
        }
        match input.read(&mut buf[filled..]) {
            Ok(0) => return Ok(filled),
            Ok(n) => filled += n,
            Err(e) => {
                if e.kind() != ErrorKind::Interrupted {
                    return Err(e);
                }
            }
        }
    }
    Err(io::Error::from(ErrorKind::TimedOut))
}

// Reads to the front of the buffer until the buffer is full, the input ends or it can't be read, and answers how many bytes stand there. What an
// error leaves unread counts as an end, so this can't fail.
pub fn read_readable<R: Read>(input: &mut R, buf: &mut [u8]) -> usize
    ensures within { result ≤ length buf.new }
    ensures front { result ≡ length (take result buf.new) }
    ensures rest { Consumes (R.remaining input.old) (R.remaining input.new) (take result buf.new) }
{
    let mut at = 0;
    // No plainer: each turn reads a byte or is the last, so the buffer's room ends it; a `for` over counted reads would have an end never reached.
    while at < buf.len() {
        match input.read(&mut buf[at..]) {
            Ok(0) | Err(_) => break,
            Ok(n) => at += n,
        }
    }
    at
}

// Whether one more byte can be read.
pub fn input_left<R: Read>(input: &mut R) -> io::Result<bool>
    ensures { IfOk result (λ left. IfSome (R.remaining input.old) (λ xs. IsTrue left ↔ (0 < length xs))) }
{
    let mut byte = [0u8; 1];
    Ok(input.read(&mut byte)? == 1)
}

// Puts at the front of the buffer what `answer` makes of the input, of which it gets at most 16,384 bytes, and answers how long that is.
pub fn answer_input<R: Read, F: FnOnce(&[u8], &mut [u8; 2048]) -> usize>(
    input: &mut R,
    out: &mut [u8; 2048],
    answer: F,
) -> io::Result<usize>
    requires { F.IsAlwaysCallable answer }
    ensures { IfOk result (λ n. (text : _) × (before : _) × (after : _) × F.post answer text before n after × (before.now ≡ out.old) ×
        (after.now ≡ out.new) × IfSome (R.remaining input.old) (λ xs. text.now ≡ take most_bytes xs)) }
{
    let mut text = [0u8; MOST_BYTES];
    let n = read_full(input, &mut text)?;
    Ok(answer(&text[..n], out))
}

// The same of standard input, and prints it.
pub fn print_answer<R: Input + Print, F: FnOnce(&[u8], &mut [u8; 2048]) -> usize>(
    rt: &R,
    answer: F,
) -> io::Result<()>
    requires called { F.IsAlwaysCallable answer }
    requires fits { (text : _) (out : _) (n : ℕ) (after : _) → length out.now ≡ 2048 → F.post answer text out n after → n ≤ 2048 }
{
    let mut out = [0u8; 2048];
    let length = answer_input(&mut rt.reader(), &mut out, answer)?;
    rt.write_all(&out[..length])
}

// Opens the file that argument i names. There is none where the argument is missing, empty, too long or no UTF-8, or can't be opened. It has no
// clause: no contract of std says which file an argument names, nor whether it can be opened.
pub fn open_argument<R: Env + Files>(rt: &R, i: usize) -> Option<R::File> {
    let mut name = [0u8; LONGEST_NAME];
    let length = rt.arg(i, &mut name).ok()?;
    let path = from_utf8(&name[..length]).ok()?;
    File::open(rt, path).ok()
}

#[cfg(test)]
mod tests {
    use super::*;

    // Five bytes: a full buffer, the one byte looked for, what is left, and the end.
    #[test]
    fn reads_up_to_the_end(rt: HostRuntime) -> io::Result<()> {
        let mut input: &[u8] = b"abcde";
        let mut buf = [b'.'; 3];
        assert_eq!(rt; read_full(&mut input, &mut buf)?, 3);
        assert_eq!(rt; buf, *b"abc");
        assert!(rt; input_left(&mut input)?);
        assert_eq!(rt; read_readable(&mut input, &mut buf), 1);
        assert_eq!(rt; buf, *b"ebc");
        assert!(rt; !input_left(&mut input)?);
        assert_eq!(rt; read_readable(&mut input, &mut buf), 0);
        assert_eq!(rt; read_full(&mut input, &mut buf)?, 0);
        Ok(())
    }
}

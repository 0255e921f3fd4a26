// Test program: lines of numbers, the least and the greatest among them, and of a word, each written where the last one ended.
#![tactic(auto)]

ghost use Rattle.std.specs.Prelude.{◌≤◌, ◌++◌, length};
ghost use Rattle.text.specs.Put.{Put};
ghost use Rattle.text.specs.Line.{number_line, word_line};

use std::io;

// Two lines: the second is written into the part of the buffer that starts where the first ended.
fn two_lines(buf: &mut [u8], values: &[i64], word: &[u8]) -> usize
    requires { length (number_line 65 values.now ++ word_line 82 values.now word.now) ≤ length buf.old }
    ensures { Put (number_line 65 values.now ++ word_line 82 values.now word.now) 0 buf.old buf.new result }
{
    let at = text::line::put_line(buf, b'A', values);
    at + text::line::put_word_line(&mut buf[at..], b'R', values, word)
}

fn main(rt: HostRuntime) -> io::Result<()> {
    let values = [0i64, 9, 10, -1, -10, i64::MAX, i64::MIN];
    let mut buffer = [0u8; 512];
    let end = two_lines(&mut buffer, &values, b"settled");
    rt.write_all(&buffer[..end])
}

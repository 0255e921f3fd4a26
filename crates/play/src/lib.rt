// Calls read from text, played on what receives them, and answered by text: the record's, and any other's.
#![tactic(auto)]

mod call;
pub mod cursor;
pub mod in_order;
mod line;
mod passes;
pub mod program;
pub mod receiver;
pub mod step;

ghost use Rattle.std.specs.Prelude.{false};
ghost use Rattle.text.specs.Written.{Writes};
ghost use Rattle.play.specs.Buffer.{PlaysAll};
ghost use Rattle.play.specs.Text.{text_played};

use passes::{fits, put_played};
use receiver::Receiver;
use record::Record;
use refusal::Refusal;

// How many bytes of its input the program reads.
pub const INPUT_LIMIT: usize = 65_536;

// Plays a whole text of calls, and writes what it prints into the buffer: its length is answered. That it fits is known before the first byte is
// written, so a buffer that is too short stays as it is.
pub fn play_on<const N: usize, R: Receiver<N> + Copy>(
    r: R,
    text: &[u8],
    buf: &mut [u8],
) -> Result<usize, Refusal>
    requires { R.valid r }
    ensures { Writes 0 (text_played R.plays false r text.now) buf.old buf.new result }
{
    if !fits(r, text, buf.len()) {
        return Err(Refusal::ShortBuffer);
    }
    Ok(put_played(r, text, buf))
}

// Plays it on a fresh record.
pub fn play(text: &[u8], buf: &mut [u8]) -> Result<usize, Refusal>
    ensures { PlaysAll text.now buf.old buf.new result }
{
    play_on(Record::new(), text, buf)
}

#[cfg(test)]
mod tests {
    use super::*;
    use crate::cursor::Cursor;
    use crate::program::{play_all, play_input};
    use crate::step::step;
    use std::io;

    // The record is not fresh, since a matrix was loaded on it: a fresh one would refuse the query and the turn. And a text's second line is played on
    // it, where the first was played on another.
    #[test]
    fn plays_on_a_record_that_is_not_fresh(rt: HostRuntime) -> io::Result<()> {
        let mut r = Record::new();
        assert!(rt; r.play_line(b"L\t1\t2\t50\t25\t25\t50").is_some());
        let mut buf = [b'.'; 8];
        assert_eq!(rt; play_on(r, b"Q\t2\t0\n", &mut buf), Ok(6));
        assert_eq!(rt; buf, *b"Q\t1\t2\n..");
        let mut printed = Ok(());
        let mut turned = r;
        let last = play_all(
            &rt,
            &mut turned,
            b"T\t2\t1\t2\nT\t2\t1\t2",
            false,
            &mut printed,
        );
        assert_eq!(rt; last.page.text(), b"?\t2\n".as_slice());
        assert_eq!(rt; turned.turns(), 1);
        let mut turned = r;
        let mut input: &[u8] = b"T\t2\t1\t2\n";
        let last = play_input(&rt, &mut input, &mut turned, &mut printed)?;
        assert!(rt; last.page.text().is_empty());
        assert_eq!(rt; turned.turns(), 1);
        let text = b"Q\t2\t0\nQ\t2\t0\n";
        let first = step(&mut Record::new(), text, false, Cursor::start());
        assert_eq!(rt; first.page.text(), b"X\t10\t0\t1\t0\t0\n".as_slice());
        let Some(here) = first.next else {
            panic!(rt; "the first line is a call");
        };
        let second = step(&mut r, text, false, here);
        assert_eq!(rt; second.page.text(), b"Q\t1\t2\n".as_slice());
        printed
    }
}

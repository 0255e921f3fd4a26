// The two passes over a text of calls: whether what it prints has at most so many bytes, and the writing of it.
ghost use Rattle.std.specs.Prelude.{false, ◌≡◌, ◌≤◌, leb, length};
ghost use Rattle.play.specs.Text.{text_played};
ghost use Rattle.text.specs.Put.{Put};

use crate::cursor::Cursor;
use crate::receiver::Receiver;
use crate::step::step;
use text::put_bytes;

// It stops at the line that is too long, so that no sum is above `most`.
pub(crate) fn fits<const N: usize, R: Receiver<N> + Copy>(r: R, text: &[u8], most: usize) -> bool
    requires { R.valid r }
    ensures { result ≡ leb (length (text_played R.plays false r text.now)) most }
{
    let mut r = r;
    let mut here = Cursor::start();
    let mut left = most;
    loop {
        let done = step(&mut r, text, false, here);
        let len = done.page.text().len();
        if left < len {
            return false;
        }
        left -= len;
        let Some(next) = done.next else {
            return true;
        };
        here = next;
    }
}

// No plainer: a driver of this loop, of `fits` and of `play_all` (program, in_order) would hand each page to a closure, of whose effect the caller knew
// only by a fold over the lines, and this one may write only where the buffer has room. An iterator over the pages would be a struct with laws of its
// own, and the last step, which `play_all` answers, is no more at hand when it ends.
pub(crate) fn put_played<const N: usize, R: Receiver<N> + Copy>(
    r: R,
    text: &[u8],
    buf: &mut [u8],
) -> usize
    requires { R.valid r × (length (text_played R.plays false r text.now) ≤ length buf.old) }
    ensures { Put (text_played R.plays false r text.now) 0 buf.old buf.new result }
{
    let mut r = r;
    let mut here = Cursor::start();
    let mut end = 0;
    loop {
        let own = step(&mut r, text, false, here);
        end += put_bytes(&mut buf[end..], own.page.text());
        let Some(next) = own.next else {
            return end;
        };
        here = next;
    }
}

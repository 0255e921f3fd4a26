// The text of all panels of a size: a line each, written after the one before it.
ghost use Rattle.std.specs.Prelude.{◌≤◌, nat_abs, length};
ghost use Rattle.text.specs.Put.{Put, Sized};
ghost use Rattle.text.specs.Written.{Writes};
ghost use Rattle.panel.specs.Refusal.{most_size, size_refusal};
ghost use Rattle.panel.specs.Text.{panels_text};

use crate::line::{line_length, put_line};
use crate::position::{count_of, panel_after, size_of};
use refusal::Refusal;

// Every text has at most so many bytes: 23 for each of 17^3 lines.
pub const MOST_BYTES: usize = 112_999;

fn text_length(b: u64) -> usize
    requires { b ≤ most_size }
    ensures { Sized (panels_text b) 112_999 result }
{
    let mut total = 0;
    for i in 0..count_of(b) {
        total += line_length(panel_after(b, i));
    }
    total
}

// Each line's writer gets the buffer's part from where the last line ended.
fn put_text(b: u64, buf: &mut [u8]) -> usize
    requires { (b ≤ most_size) × (length (panels_text b) ≤ length buf.old) }
    ensures { Put (panels_text b) 0 buf.old buf.new result }
{
    let lines = count_of(b);
    let mut at = 0;
    for i in 0..lines {
        at += put_line(&mut buf[at..], panel_after(b, i));
    }
    at
}

// The length is known before the first byte is written, so a buffer that is too short stays as it is.
pub fn write_panels(b: i64, out: &mut [u8]) -> Result<usize, Refusal>
    ensures { Writes (size_refusal b) (panels_text (nat_abs b)) out.old out.new result }
{
    let size = size_of(b)?;
    if out.len() < text_length(size) {
        return Err(Refusal::ShortBuffer);
    }
    Ok(put_text(size, out))
}

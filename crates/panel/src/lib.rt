// Panels: symmetric matrices of two channels with small entries, document 02, W13.
#![tactic(auto)]

mod line;
pub mod lines;
pub mod position;

ghost use Rattle.text.specs.Put.{Put};
ghost use Rattle.panel.specs.Printed.{panels_printed};

use call_text::field::number;
use lines::{MOST_BYTES, write_panels};

// a_12 is a_21 too.
#[derive(Clone, Copy)]
pub struct Panel {
    pub a11: i64,
    pub a12: i64,
    pub a22: i64,
}

// Entries from −b to b, for b from 0 to this.
pub const MOST_SIZE: u64 = 8;

// What the program prints for its argument, at the front of the buffer.
pub fn answer(argument: &[u8], out: &mut [u8; MOST_BYTES]) -> usize
    ensures { Put (panels_printed argument.now) 0 out.old out.new result }
{
    let Some(b) = number(argument) else {
        return text::line::put_line(out, b'?', &[]);
    };
    match write_panels(b, out) {
        Ok(length) => length,
        Err(refusal) => text::line::put_line(out, b'X', &[i64::from(refusal.number())]),
    }
}

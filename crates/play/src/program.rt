// What a program does that plays an input: it reads a text of calls, plays it line after line, and prints each answer.
ghost use Rattle.std.specs.Prelude.{◌≡◌, ◌≤◌, IfOk, IfSome, length, take};
ghost use Rattle.play.specs.Steps.{Ends, EndsInput};
ghost use Rattle.play.specs.Text.{FrontOf};

use crate::INPUT_LIMIT;
use crate::cursor::Cursor;
use crate::receiver::Receiver;
use crate::step::{Stepped, step};
use input::{input_left, read_full};
use std::io;
use std::io::Read;

// Reads a text to the front of the buffer, and answers how many bytes stand there, and whether input is left after them.
pub fn read_text<R: Read>(input: &mut R, text: &mut [u8; INPUT_LIMIT]) -> io::Result<(usize, bool)>
    ensures within { IfOk result (λ z. z.0 ≤ length text.new) }
    ensures reads { IfOk result (λ z. IfSome (R.remaining input.old) (λ xs. FrontOf xs (take z.0 text.new) z.1)) }
{
    let n = read_full(input, text)?;
    let left = n == INPUT_LIMIT && input_left(input)?;
    Ok((n, left))
}

// Prints what a line printed, unless an earlier one could not be printed, and answers where the next one starts that is to be played.
pub(crate) fn show<const N: usize>(
    rt: &impl Print,
    done: &Stepped<N>,
    printed: &mut io::Result<()>,
) -> Option<Cursor>
    ensures { result ≡ done.now.next }
{
    if printed.is_ok() {
        *printed = rt.write_all(done.page.text());
    }
    done.next
}

// Line after line from the first, each on what those before it left, to where there is no more: the answer is the last step.
pub fn play_all<const N: usize, R: Receiver<N>>(
    rt: &impl Print,
    r: &mut R,
    text: &[u8],
    left: bool,
    printed: &mut io::Result<()>,
) -> Stepped<N>
    requires { R.valid r.old }
    ensures { Ends R.plays r.old text.now left result }
{
    let mut here = Cursor::start();
    loop {
        let done = step(r, text, left, here);
        let Some(next) = show(rt, &done, printed) else {
            return done;
        };
        here = next;
    }
}

// Reads the text of an input, of which more may be left, and plays it: the answer is the last step.
pub fn play_input<const N: usize, Rc: Receiver<N>, R: Read>(
    rt: &impl Print,
    input: &mut R,
    receiver: &mut Rc,
    printed: &mut io::Result<()>,
) -> io::Result<Stepped<N>>
    requires { Rc.valid receiver.old }
    ensures { IfOk result (λ z. IfSome (R.remaining input.old) (λ xs. EndsInput Rc.plays receiver.old xs z)) }
{
    let mut text = [0u8; INPUT_LIMIT];
    let (n, left) = read_text(input, &mut text)?;
    Ok(play_all(rt, receiver, &text[..n], left, printed))
}

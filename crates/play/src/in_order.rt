// Lines of a text played in order, as the programs play theirs: `step` here may be called only where a line may be played on the receiver (`stands`).
ghost use Rattle.std.specs.Prelude.{◌≡◌, ◌≤◌, IfOk, IfSome};
ghost use Rattle.play.specs.Steps.{Begins, Ends, EndsInput, Steps, Within};

use crate::INPUT_LIMIT;
use crate::cursor::Cursor;
use crate::program::{read_text, show};
use crate::receiver::InOrder;
use crate::step::{Stepped, ended, unknown};
use call_text::find::find;
use std::io;
use std::io::Read;
use text::line::LINE_FEED;

// Plays the line at a cursor on what the lines before it left; `left` says that input is left after the text, so that a line at its end is not whole.
// It has the body of `step::step`, which takes any receiver: one that calls the other copies each line's page once more.
pub fn step<const N: usize, R: InOrder<N>>(
    r: &mut R,
    text: &[u8],
    left: bool,
    here: Cursor,
) -> Stepped<N>
    requires { R.valid r.old × Within text.now here × R.stands text.now r.old here }
    ensures steps { Steps R.plays text.now left here r.old result r.new }
    ensures keeps { R.valid r.new }
{
    let at = here.at;
    let line = here.line;
    if text.len() <= at {
        return ended(left, line);
    }
    let end = find(text, at, LINE_FEED);
    if text.len() <= end {
        return unknown(line);
    }
    let Some(page) = r.play_line(&text[at..end]) else {
        return unknown(line);
    };
    Stepped {
        next: Some(Cursor {
            at: end + 1,
            line: line + 1,
        }),
        page,
    }
}

// Line after line from the first, each on what those before it left, to where there is no more: the answer is the last step.
pub fn play_all<const N: usize, R: InOrder<N>>(
    rt: &impl Print,
    r: &mut R,
    text: &[u8],
    left: bool,
    printed: &mut io::Result<()>,
) -> Stepped<N>
    requires { R.valid r.old × Begins R.stands r.old }
    ensures { Ends R.plays r.old text.now left result }
{
    let mut here = Cursor::start();
    loop {
        let done = step(r, text, left, here);
        let Some(next) = show(rt, &done, printed) else {
            return done;
        };
        here = next;
    }
}

// Reads the text of an input, of which more may be left, and plays it: the answer is the last step.
pub fn play_input<const N: usize, Rc: InOrder<N>, R: Read>(
    rt: &impl Print,
    input: &mut R,
    receiver: &mut Rc,
    printed: &mut io::Result<()>,
) -> io::Result<Stepped<N>>
    requires { Rc.valid receiver.old × Begins Rc.stands receiver.old }
    ensures { IfOk result (λ z. IfSome (R.remaining input.old) (λ xs. EndsInput Rc.plays receiver.old xs z)) }
{
    let mut text = [0u8; INPUT_LIMIT];
    let (n, left) = read_text(input, &mut text)?;
    Ok(play_all(rt, receiver, &text[..n], left, printed))
}

// A line of a text of calls, played on what receives them.
ghost use Rattle.std.specs.Prelude.{◌≡◌, ◌+◌, ◌*◌, ◌≤◌, cond, []};
ghost use Rattle.play.specs.Steps.{Steps, Within, cursor_at, stopped_at};
ghost use Rattle.play.specs.Text.{unknown_line};

use crate::cursor::Cursor;
use crate::in_order;
use crate::receiver::{InOrder, Receiver};
use call_text::answer::numbers_line;
use call_text::find::find;
use text::line::LINE_FEED;
use text::page::Page;

// Where the next line starts that is to be played, and what this one prints.
#[derive(Clone, Copy)]
pub struct Stepped<const N: usize> {
    pub next: Option<Cursor>,
    pub page: Page<N>,
}

// `?` and the line's number: no call, or a line that was not read whole.
#[tactic(auto, unfolding(crate::specs::Text::unknown_line, crate::specs::Steps::stopped_at))]
pub(crate) fn unknown<const N: usize>(line: u64) -> Stepped<N>
    requires { 2 + 21 * 1 ≤ N }
    ensures { result ≡ stopped_at N (unknown_line line) }
{
    Stepped {
        next: None,
        page: numbers_line(b'?', &[line]),
    }
}

// The text's end: a line that was not read whole starts there where input is left.
#[tactic(auto, unfolding(crate::specs::Steps::stopped_at))]
pub(crate) fn ended<const N: usize>(left: bool, line: u64) -> Stepped<N>
    requires { 2 + 21 * 1 ≤ N }
    ensures { result ≡ stopped_at N (cond left (unknown_line line) []) }
{
    if left {
        return unknown(line);
    }
    Stepped {
        next: None,
        page: Page::empty(),
    }
}

// Plays the line at a cursor on a receiver, whatever was played before; `left` says that input is left after the text, so that a line at its end is
// not whole.
pub fn step<const N: usize, R: Receiver<N>>(
    r: &mut R,
    text: &[u8],
    left: bool,
    here: Cursor,
) -> Stepped<N>
    requires { R.valid r.old × Within text.now here }
    ensures steps { Steps R.plays text.now left here r.old result r.new }
    ensures keeps { R.valid r.new }
{
    let at = here.at;
    let line = here.line;
    if text.len() <= at {
        return ended(left, line);
    }
    let end = find(text, at, LINE_FEED);
    if text.len() <= end {
        return unknown(line);
    }
    let Some(page) = r.play_line(&text[at..end]) else {
        return unknown(line);
    };
    Stepped {
        next: Some(Cursor {
            at: end + 1,
            line: line + 1,
        }),
        page,
    }
}

// The same in order, at a place of the text where a line of this number starts.
#[tactic(auto, unfolding(crate::specs::Steps::cursor_at))]
pub fn step_at<const N: usize, R: InOrder<N>>(
    r: &mut R,
    text: &[u8],
    left: bool,
    at: usize,
    line: u64,
) -> Stepped<N>
    requires { R.valid r.old × Within text.now (cursor_at at line) × R.stands text.now r.old (cursor_at at line) }
    ensures steps { Steps R.plays text.now left (cursor_at at line) r.old result r.new }
    ensures keeps { R.valid r.new }
{
    in_order::step(r, text, left, Cursor { at, line })
}

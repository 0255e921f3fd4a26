// A line of a text of calls on a book, played on the book that the lines before it left.
ghost use Rattle.book.specs.Consistent.{Consistent};
ghost use Rattle.play.specs.Steps.{Within, cursor_at};
ghost use Rattle.book_text.specs.Steps.{StepsBook};

use crate::receiver::BookReceiver;
use book::Book;
use play::step::step_at;
use text::page::Page;

// Whether the next line is to be played, where that one starts and its number, the book to play it on, and what this one prints.
#[derive(Drop)]
pub struct BookStep {
    pub more: bool,
    pub at: usize,
    pub line: u64,
    pub book: Book,
    pub page: Page<2048>,
}

// Plays the line that starts at a place of the text; `left` says that input is left after the text, so that a line at its end is not whole.
pub fn step(b: Book, text: &[u8], left: bool, at: usize, line: u64) -> BookStep
    requires { Consistent b × Within text.now (cursor_at at line) }
    ensures { StepsBook text.now left b at line result }
{
    let mut receiver = BookReceiver { book: b };
    let done = step_at(&mut receiver, text, left, at, line);
    match done.next {
        Some(next) => BookStep {
            more: true,
            at: next.place(),
            line: next.number(),
            book: receiver.book,
            page: done.page,
        },
        None => BookStep {
            more: false,
            at,
            line,
            book: receiver.book,
            page: done.page,
        },
    }
}

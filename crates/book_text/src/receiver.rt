// A book of samples, on which lines of calls are played.
ghost use Rattle.std.specs.Prelude.{◌≡◌};
ghost use Rattle.std.proofs.Common.{rules};
ghost use Rattle.book.specs.Consistent.{Consistent};
ghost use Rattle.book_text.specs.Text.{book_plays, no_receiver};

use crate::call::play_line;
use book::Book;
use play::receiver::{InOrder, Receiver};
use text::page::Page;

// No plainer without it: Rust has another crate's trait for a type of one's own only.
#[derive(Clone, Copy)]
pub struct BookReceiver {
    pub book: Book,
}

impl BookReceiver {
    // No book is begun at first.
    #[tactic(auto, unfolding(crate::specs::Text::no_receiver))]
    pub fn new() -> Self
        ensures { (result ≡ no_receiver) × Consistent result.book }
    {
        BookReceiver { book: Book::none() }
    }
}

impl Receiver<2048> for BookReceiver {
    ghost valid = { λ s. Consistent s.book };

    ghost plays = { book_plays };

    ghost room = { Prim.search rules };

    ghost small = { Prim.search rules };

    fn play_line(&mut self, line: &[u8]) -> Option<Page<2048>> {
        let done = play_line(self.book, line)?;
        self.book = done.book;
        Some(done.page)
    }
}

// A line may be played on a book at any place.
impl InOrder<2048> for BookReceiver {
    ghost stands = { λ _ _ _. Unit };

    ghost goes = { λ text left here s n z next h t on more. tt };
}

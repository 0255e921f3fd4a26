// Lines of calls on a book of samples, played in their order, and answered by text.
#![tactic(auto)]

mod call;
mod naturals;
pub mod page;
pub mod receiver;
pub mod step;

ghost use Rattle.std.specs.Prelude.{false};
ghost use Rattle.text.specs.Written.{Writes};
ghost use Rattle.book_text.specs.Text.{summary_text};

use play::play_on;
use receiver::BookReceiver;
use refusal::Refusal;

// Plays a whole text of calls, and writes what it prints into the buffer. A buffer that is too short stays as it is.
#[tactic(auto, unfolding(crate::specs::Text::summary_text))]
pub fn play_book(text: &[u8], buf: &mut [u8]) -> Result<usize, Refusal>
    ensures { Writes 0 (summary_text false text.now) buf.old buf.new result }
{
    play_on(BookReceiver::new(), text, buf)
}

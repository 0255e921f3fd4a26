// Plays the calls of standard input, of which it reads at most 65,536 bytes, on one book of samples.
#![tactic(auto)]

ghost use Rattle.std.specs.Prelude.{IfOk, IfSome};
ghost use Rattle.play.specs.Steps.{EndsInput};
ghost use Rattle.book_text.specs.Text.{book_plays, no_receiver};

use book_text::receiver::BookReceiver;
use play::in_order::play_input;
use play::step::Stepped;
use std::io;
use std::io::Read;

// Plays what is read of the input on one book of samples: the answer is the last step.
fn play_book<R: Read>(
    rt: &impl Print,
    input: &mut R,
    printed: &mut io::Result<()>,
) -> io::Result<Stepped<2048>>
    ensures { IfOk result (λ z. IfSome (R.remaining input.old) (λ xs. EndsInput book_plays no_receiver xs z)) }
{
    let mut b = BookReceiver::new();
    play_input(rt, input, &mut b, printed)
}

fn main(rt: HostRuntime) -> io::Result<()> {
    let mut printed = Ok(());
    play_book(&rt, &mut rt.reader(), &mut printed)?;
    printed
}

// Plays the calls of standard input, of which it reads at most 65,536 bytes, on one record.
#![tactic(auto)]

ghost use Rattle.std.specs.Prelude.{IfOk, IfSome};
ghost use Rattle.record.specs.Record.{fresh};
ghost use Rattle.play.specs.Steps.{EndsInput};
ghost use Rattle.play.specs.Text.{record_plays};

use play::in_order::play_input;
use play::step::Stepped;
use record::Record;
use std::io;
use std::io::Read;

// Plays what is read of the input on one record, which is lent to each call: the answer is the last step.
#[tactic(auto, using(record::specs::laws::Named::fresh_kept, play::specs::laws::Steps::record_begins))]
fn play_calls<R: Read>(
    rt: &impl Print,
    input: &mut R,
    printed: &mut io::Result<()>,
) -> io::Result<Stepped<256>>
    ensures { IfOk result (λ z. IfSome (R.remaining input.old) (λ xs. EndsInput record_plays fresh xs z)) }
{
    let mut r = Record::new();
    play_input(rt, input, &mut r, printed)
}

fn main(rt: HostRuntime) -> io::Result<()> {
    let mut printed = Ok(());
    play_calls(&rt, &mut rt.reader(), &mut printed)?;
    printed
}

// A line of calls, played on a lent record.
ghost use Rattle.std.specs.Prelude.{◌≡◌, ◌≤◌};
ghost use Rattle.call_text.specs.Answers.{shown};
ghost use Rattle.std.proofs.Common.{rules};
ghost use Rattle.record.specs.Kept.{Kept};
ghost use Rattle.play.specs.ReachedRecord.{ReachedRecord};
ghost use Rattle.play.specs.laws.Steps.{record_goes};
ghost use Rattle.play.specs.Text.{record_plays};
ghost use Rattle.play.specs.inner.Lines.{told_with};

use crate::call::call;
use crate::receiver::{InOrder, Receiver};
use call_text::answer::{Told, answer_line};
use call_text::reading::put_readings;
use call_text::request::{NUMBERS, Request, read_line};
use record::{AxisAnswer, Record};
use text::page::Page;

#[tactic(auto, unfolding(crate::specs::inner::Lines::told_with))]
fn answered_line(answer: AxisAnswer, r: Record) -> Page<256>
    requires { r.solver.n ≤ 8 }
    ensures { result ≡ shown (told_with answer r) }
{
    let value = answer.value;
    let row = answer.row;
    answer_line(Told {
        answer: value,
        row,
        n: r.channels(),
        refused: r.refused_calls(),
    })
}

impl Receiver<256> for Record {
    ghost valid = { Kept };

    ghost plays = { record_plays };

    ghost room = { Prim.search rules };

    ghost small = { Prim.search rules };

    // The line's numbers go into the first array, and of a load of samples their readings into the second, at the same places.
    fn play_line(&mut self, line: &[u8]) -> Option<Page<256>> {
        let mut numbers = [0i64; NUMBERS];
        let request = read_line(line, &mut numbers)?;
        let mut readings = [0u32; NUMBERS];
        if let Request::LoadSamples { to, .. } = request {
            put_readings(&numbers[..to], &mut readings);
        }
        let answer = call(self, request, &numbers, &readings);
        Some(answered_line(answer, *self))
    }
}

impl InOrder<256> for Record {
    ghost stands = { ReachedRecord };

    ghost goes = { record_goes };
}

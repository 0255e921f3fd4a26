// A job text answered by another text in a lent buffer: what a program prints of the answer.
ghost use Rattle.std.specs.Prelude.{◌≡◌, ◌≤◌, MatchResult, length};
ghost use Rattle.refusal.specs.Refusal.{number_of};
ghost use Rattle.text.specs.Line.{line_x};
ghost use Rattle.text.specs.Put.{Put};

use crate::RefusedLine;
use text::line::put_refusal;

// What a program prints, at the front of the buffer: the text that a writer left there, or the line of its refusal.
pub fn put_reply(reply: Result<usize, RefusedLine>, out: &mut [u8]) -> usize
    requires { 44 ≤ length out.old }
    ensures { MatchResult reply (λ written. (result ≡ written) × (out.new ≡ out.old))
        (λ refused. Put (line_x (number_of refused.refusal) refused.line) 0 out.old out.new result) }
{
    match reply {
        Ok(length) => length,
        Err(refused) => put_refusal(out, refused.refusal.number(), refused.line),
    }
}

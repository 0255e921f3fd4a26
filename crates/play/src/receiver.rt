// What calls are made on: it reads a line as a call, makes the call, and answers what the call prints.
ghost use Rattle.std.specs.Prelude.{◌+◌, ◌*◌, ◌^◌, ◌<◌, ◌≤◌, ℕ, List, Option};
ghost use Rattle.play.specs.Receiver.{PlaysLine};
ghost use Rattle.play.specs.Steps.{GoesOn};
ghost use Rattle.play.specs.declared.cursor.Cursor.{Cursor};

use text::page::Page;

pub trait Receiver<const N: usize> {
    // what holds of it before and after each call
    ghost valid: { Self → Type 0 };

    // what the call of a line prints, and the receiver after it; none where the line is no call
    ghost plays: { Self → List ℕ → Option (List ℕ × Self) };

    fn play_line(&mut self, line: &[u8]) -> Option<Page<N>>
        requires { valid self.old }
        ensures plays_line { PlaysLine (plays self.old line.now) self.old result self.new }
        ensures keeps { valid self.new };

    // a page has room for a tag and a number, which a line that is no call prints
    ghost room: { 2 + 21 * 1 ≤ N };

    // and is no larger than a value in memory may be
    ghost small: { N < 2 ^ 32 };
}

// A receiver on which the lines of a text are played in order, each on what those before it left.
pub trait InOrder<const N: usize>: Receiver<N> {
    // where the line at a cursor may be played on it: at the start of a text, and at what a step leaves
    ghost stands: { List ℕ → Self → Cursor → Type 0 };

    ghost goes: { GoesOn Self.plays stands };
}

// The line of the figures: numbers parted by tabs.
ghost use Rattle.std.specs.Prelude.{◌≤◌, pos, length, map, ◌≡◌};
ghost use Rattle.season_report.specs.Text.{season_numbers};
ghost use Rattle.text.specs.Decimal.{number};
ghost use Rattle.text.specs.Line.{line};
ghost use Rattle.text.specs.Put.{Put, Sized};

use crate::{LargestError, Season};
use text::line::LINE_FEED;
use text::put_byte;

// Where there is no largest error, it is printed as 0 of job 0 and axis 0.
pub(crate) fn numbers_of(s: Season) -> [i64; 12]
    ensures { result ≡ map pos (season_numbers s) }
{
    let largest = s.largest.unwrap_or(LargestError {
        error: 0,
        job: 0,
        axis: 0,
    });
    [
        s.jobs as i64,
        s.settled as i64,
        s.still as i64,
        s.spent as i64,
        s.refused[0] as i64,
        s.refused[1] as i64,
        s.refused[2] as i64,
        s.refused[3] as i64,
        s.turns as i64,
        largest.error as i64,
        largest.job as i64,
        largest.axis as i64,
    ]
}

// No tab stands before the first number, and a line feed after the last.
pub(crate) fn line_length(numbers: &[i64]) -> usize
    requires { length numbers.now ≡ 12 }
    ensures { Sized (line (map number numbers.now)) 252 result }
{
    text::line::numbers_length(numbers)
}

// The line, at the front of the buffer.
pub(crate) fn put_line(buf: &mut [u8], numbers: &[i64]) -> usize
    requires { (1 ≤ length numbers.now) × (length (line (map number numbers.now)) ≤ length buf.old) }
    ensures { Put (line (map number numbers.now)) 0 buf.old buf.new result }
{
    let at = text::line::put_fields(buf, numbers);
    at + put_byte(&mut buf[at..], LINE_FEED)
}

// What the call of a line prints, on a page of 2,048 bytes.
ghost use Rattle.std.specs.Prelude.{[], ◌∷◌, ◌≡◌, ◌≤◌, List};
ghost use Rattle.limits.specs.Limits.{most_samples};
ghost use Rattle.readings.specs.Samples.{Sample};
ghost use Rattle.refusal.specs.Refusal.{number_of};
ghost use Rattle.scatter.specs.Table.{table_of};
ghost use Rattle.text.specs.Decimal.{digits};
ghost use Rattle.text.specs.Line.{line};
ghost use Rattle.book_text.specs.Answers.{sums_line};
ghost use Rattle.book_text.specs.inner.Played.{TablePage, short_text};

use crate::naturals::{put_cross, put_naturals};
use book::BookAnswer;
use call_text::answer::numbers_line;
use job_table::lines::put_table;
use refusal::Refusal;
use scatter::table::Table;
use sums::Sums;
use text::line::{LINE_FEED, put_natural_field};
use text::page::Page;
use text::put_byte;

// `Z`, the number, the n channel sums and the cross sums.
pub(crate) fn sums_page(n: usize, t: Sums) -> Page<2048>
    requires { n ≤ 8 }
    ensures { result ≡ sums_line n t }
{
    let channel = t.channel;
    let cross = t.cross;
    let mut bytes = [0u8; 2048];
    let mut at = put_byte(&mut bytes, b'Z');
    at += put_natural_field(&mut bytes[at..], t.k);
    at += put_naturals(&mut bytes[at..], &channel[..n]);
    at += put_cross(&mut bytes[at..], &cross, n);
    let len = at + put_byte(&mut bytes[at..], LINE_FEED);
    Page::new(bytes, len)
}

pub(crate) fn table_page(n: usize, k: usize, table: Table) -> Page<2048>
    requires { (n ≤ 8) × (k ≤ most_samples) × ((ss : List Sample) × (table ≡ table_of n ss)) }
    ensures { TablePage n k table result }
{
    let mut bytes = [0u8; 2048];
    let len = put_table(&mut bytes, n, k, table);
    Page::new(bytes, len)
}

// `X` and the refusal's number.
pub(crate) fn refused(refusal: Refusal) -> Page<2048>
    ensures { result ≡ line ((88 ∷ []) ∷ digits (number_of refusal) ∷ []) }
{
    numbers_line(b'X', &[u64::from(refusal.number())])
}

// The line of an answer that has one number or none, or of a refusal.
#[tactic(auto, unfolding(crate::specs::inner::Played::short_text))]
pub(crate) fn short_page(answer: Result<BookAnswer, Refusal>) -> Page<2048>
    ensures { result ≡ short_text answer }
{
    match answer {
        Ok(BookAnswer::Begun) => numbers_line(b'N', &[]),
        Ok(BookAnswer::Added(k)) => numbers_line(b'A', &[k]),
        Ok(BookAnswer::Struck(k)) => numbers_line(b'K', &[k]),
        Ok(BookAnswer::Summed | BookAnswer::Tabled) => Page::empty(),
        Err(refusal) => refused(refusal),
    }
}

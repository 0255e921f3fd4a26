// A call on a book, by the tag and the numbers of its line.
ghost use Rattle.std.specs.Prelude.{◌≡◌, ◌≤◌, length};
ghost use Rattle.sums.specs.Sums.{sums_of};
ghost use Rattle.book.specs.Book.{samples_in};
ghost use Rattle.book.specs.Calls.{begin, make_table, read_summary, rebuild, strike};
ghost use Rattle.book.specs.Consistent.{Consistent};
ghost use Rattle.call_text.specs.Calls.{number_limit};
ghost use Rattle.book_text.specs.Answers.{call_text};
ghost use Rattle.book_text.specs.Calls.{book_call_by, book_call_of, no_number_of, one_number_of, sample_by};
ghost use Rattle.book_text.specs.inner.Played.{PlaysCall, ShortPlay, number_alone};

use crate::page::{refused, short_page, sums_page, table_page};
use book::{Book, Changed};
use call_text::line::read_fields;
use call_text::reading::put_readings;
use call_text::request::{NUMBERS, argument};
use sums::Sums;
use text::page::Page;

// The book after a call, and what the call prints.
#[derive(Drop)]
pub struct BookPlay {
    pub book: Book,
    pub page: Page<2048>,
}

fn changed(z: Changed) -> BookPlay
    ensures { ShortPlay z result }
{
    let answer = z.answer;
    let book = z.book;
    BookPlay {
        book,
        page: short_page(answer),
    }
}

// The number of a call that has one.
fn one_number(numbers: &[i64]) -> Option<usize>
    ensures { result ≡ number_alone numbers.now }
{
    match numbers {
        [x] => Some(argument(*x) as usize),
        _ => None,
    }
}

fn begun(b: Book, numbers: &[i64]) -> Option<BookPlay>
    requires { Consistent b }
    ensures { PlaysCall b (one_number_of begin numbers.now) result }
{
    let n = one_number(numbers)?;
    Some(changed(b.begin(n)))
}

fn struck(b: Book, numbers: &[i64]) -> Option<BookPlay>
    requires { Consistent b }
    ensures { PlaysCall b (one_number_of strike numbers.now) result }
{
    let i = one_number(numbers)?;
    Some(changed(b.strike(i)))
}

fn added(b: Book, numbers: &[i64]) -> Option<BookPlay>
    requires { Consistent b × (length numbers.now ≤ number_limit) }
    ensures { PlaysCall b (sample_by numbers.now) result }
{
    if numbers.is_empty() {
        return None;
    }
    let mut readings = [0u32; NUMBERS];
    put_readings(numbers, &mut readings);
    Some(changed(b.add(readings[0], &readings[1..numbers.len()])))
}

// The line of the sums t, or of the refusal.
fn sums_said(b: Book, t: Sums) -> Page<2048>
    requires { Consistent b × (t ≡ sums_of (samples_in b)) }
    ensures { (result ≡ call_text b read_summary) × (result ≡ call_text b rebuild) }
{
    match b.summary_answer() {
        Ok(()) => sums_page(b.channels(), t),
        Err(refusal) => refused(refusal),
    }
}

fn table_said(b: Book) -> Page<2048>
    requires { Consistent b }
    ensures { result ≡ call_text b make_table }
{
    match b.table() {
        Ok(table) => table_page(b.channels(), b.summary().k as usize, table),
        Err(refusal) => refused(refusal),
    }
}

// No plainer: this and the two after it differ in the page, which only a call with no number is to make.
fn summed(b: Book, numbers: &[i64]) -> Option<BookPlay>
    requires { Consistent b }
    ensures { PlaysCall b (no_number_of read_summary numbers.now) result }
{
    if !numbers.is_empty() {
        return None;
    }
    Some(BookPlay {
        book: b,
        page: sums_said(b, b.summary()),
    })
}

fn rebuilt(b: Book, numbers: &[i64]) -> Option<BookPlay>
    requires { Consistent b }
    ensures { PlaysCall b (no_number_of rebuild numbers.now) result }
{
    if !numbers.is_empty() {
        return None;
    }
    Some(BookPlay {
        book: b,
        page: sums_said(b, b.rebuild()),
    })
}

fn tabled(b: Book, numbers: &[i64]) -> Option<BookPlay>
    requires { Consistent b }
    ensures { PlaysCall b (no_number_of make_table numbers.now) result }
{
    if !numbers.is_empty() {
        return None;
    }
    Some(BookPlay {
        book: b,
        page: table_said(b),
    })
}

#[tactic(auto, unfolding(crate::specs::Calls::book_call_by))]
fn by_tag(b: Book, tag: u8, numbers: &[i64]) -> Option<BookPlay>
    requires { Consistent b × (length numbers.now ≤ number_limit) }
    ensures { PlaysCall b (book_call_by tag numbers.now) result }
{
    match tag {
        b'N' => begun(b, numbers),
        b'A' => added(b, numbers),
        b'K' => struck(b, numbers),
        b'Z' => summed(b, numbers),
        b'B' => rebuilt(b, numbers),
        b'T' => tabled(b, numbers),
        _ => None,
    }
}

// The call of a line, on the book that the lines before it left.
pub(crate) fn play_line(b: Book, line: &[u8]) -> Option<BookPlay>
    requires { Consistent b }
    ensures { PlaysCall b (book_call_of line.now) result }
{
    let mut numbers = [0i64; NUMBERS];
    let fields = read_fields(line, &mut numbers)?;
    by_tag(b, fields.tag, &numbers[..fields.count])
}

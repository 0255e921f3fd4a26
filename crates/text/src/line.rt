// Writers of lines into a lent buffer: fields parted by one tab, each line ended by a line feed.
ghost use Rattle.std.specs.Prelude.{◌∷◌, ◌+◌, ◌*◌, ◌≤◌, ◌<◌, ◌^◌, length};
ghost use Rattle.text.specs.Decimal.{digits};
ghost use Rattle.text.specs.Put.{Put, Sized};
ghost use Rattle.text.specs.Line.{numbers, number_fields, number_line, word_line, line_x};

use crate::{number_length, put_byte, put_bytes, put_natural, put_number};

// What parts the fields of a line, and what ends it.
pub const TAB: u8 = b'\t';

pub const LINE_FEED: u8 = b'\n';

// The length of the values, each after a tab.
pub fn numbers_length(values: &[i64]) -> usize
    requires { length values.now < 2 ^ 32 }
    ensures { Sized (numbers values.now) (21 * length values.now) result }
{
    let mut total = 0;
    for value in values {
        total += 1 + number_length(*value);
    }
    total
}

// Each writer below puts its text at the front of the buffer. The values, each after a tab.
pub fn put_numbers(buf: &mut [u8], values: &[i64]) -> usize
    requires { length (numbers values.now) ≤ length buf.old }
    ensures { Put (numbers values.now) 0 buf.old buf.new result }
{
    let mut at = 0;
    for value in values {
        at += put_byte(&mut buf[at..], TAB);
        at += put_number(&mut buf[at..], *value);
    }
    at
}

// The values alone: no tab stands before the first.
pub fn put_fields(buf: &mut [u8], values: &[i64]) -> usize
    requires { (1 ≤ length values.now) × (length (number_fields values.now) ≤ length buf.old) }
    ensures { Put (number_fields values.now) 0 buf.old buf.new result }
{
    let at = put_number(buf, values[0]);
    at + put_numbers(&mut buf[at..], &values[1..])
}

// A line of a tag and the values.
pub fn put_line(buf: &mut [u8], tag: u8, values: &[i64]) -> usize
    requires { length (number_line tag values.now) ≤ length buf.old }
    ensures { Put (number_line tag values.now) 0 buf.old buf.new result }
{
    let mut at = put_byte(buf, tag);
    at += put_numbers(&mut buf[at..], values);
    at + put_byte(&mut buf[at..], LINE_FEED)
}

// A line of a tag, the values and a word.
pub fn put_word_line(buf: &mut [u8], tag: u8, values: &[i64], word: &[u8]) -> usize
    requires { length (word_line tag values.now word.now) ≤ length buf.old }
    ensures { Put (word_line tag values.now word.now) 0 buf.old buf.new result }
{
    let mut at = put_byte(buf, tag);
    at += put_numbers(&mut buf[at..], values);
    at += put_byte(&mut buf[at..], TAB);
    at += put_bytes(&mut buf[at..], word);
    at + put_byte(&mut buf[at..], LINE_FEED)
}

// A tab and a number, which are at most 21 bytes.
pub fn put_natural_field(buf: &mut [u8], x: u64) -> usize
    requires { 21 ≤ length buf.old }
    ensures puts { Put (9 ∷ digits x) 0 buf.old buf.new result }
    ensures bounded { result ≤ 21 }
{
    let at = put_byte(buf, TAB);
    at + put_natural(&mut buf[at..], x)
}

// The line of a refusal, which is given by its number: the line is of any number that a caller has, the 16 of `Refusal` or another.
pub fn put_refusal(buf: &mut [u8], number: u32, line: usize) -> usize
    requires { 44 ≤ length buf.old }
    ensures { Put (line_x number line) 0 buf.old buf.new result }
{
    let mut at = put_byte(buf, b'X');
    at += put_natural_field(&mut buf[at..], u64::from(number));
    at += put_natural_field(&mut buf[at..], line as u64);
    at + put_byte(&mut buf[at..], LINE_FEED)
}

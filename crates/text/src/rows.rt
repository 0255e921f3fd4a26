// Rows of numbers as lines, a tag and the first numbers of a row in each: how long they are together, and the writer.
ghost use Rattle.std.specs.Prelude.{◌≤◌, length};
ghost use Rattle.text.specs.Put.{Put};
ghost use Rattle.text.specs.Lines.{lines};
ghost use Rattle.text.specs.Rows.{RowsSized, row_line};

use crate::line::{numbers_length, put_line};

// The length of the lines of the first n rows, `width` numbers each.
pub fn rows_length(rows: &[[i64; 11]; 8], n: usize, width: usize) -> usize
    requires { (n ≤ 8) × (width ≤ 11) }
    ensures { RowsSized width rows.now n result }
{
    let mut total = 0;
    for row in &rows[..n] {
        total += numbers_length(&row[..width]) + 2;
    }
    total
}

// The lines, at the front of the buffer: each line's writer gets the buffer's part from where the last line ended.
pub fn put_rows(buf: &mut [u8], tag: u8, rows: &[[i64; 11]; 8], n: usize, width: usize) -> usize
    requires { (n ≤ 8) × (width ≤ 11) × (length (lines (row_line tag width rows.now) n) ≤ length buf.old) }
    ensures { Put (lines (row_line tag width rows.now) n) 0 buf.old buf.new result }
{
    let mut at = 0;
    for row in &rows[..n] {
        at += put_line(&mut buf[at..], tag, &row[..width]);
    }
    at
}

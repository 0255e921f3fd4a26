// Naturals written into a lent buffer, each after a tab.
ghost use Rattle.std.specs.Prelude.{◌≡◌, ◌*◌, ◌≤◌, length};
ghost use Rattle.book_text.specs.Answers.{cross_rows};
ghost use Rattle.book_text.specs.inner.Played.{NaturalsPut};

use text::line::put_natural_field;

// At the front of the buffer; the answer is how long they are.
pub(crate) fn put_naturals(buf: &mut [u8], values: &[u64]) -> usize
    requires { (length values.now ≤ 64) × (21 * length values.now ≤ length buf.old) }
    ensures { NaturalsPut values.now (length values.now) buf.old buf.new result }
{
    let mut at = 0;
    for value in values {
        at += put_natural_field(&mut buf[at..], *value);
    }
    at
}

// The cross sums of the n channels for i ≤ j, row after row: row i stands from 8 × i + i to before 8 × i + n.
pub(crate) fn put_cross(buf: &mut [u8], cross: &[u64], n: usize) -> usize
    requires { (n ≤ 8) × (length cross.now ≡ 64) × (21 * (8 * n) ≤ length buf.old) }
    ensures { NaturalsPut (cross_rows n cross.now n) (8 * n) buf.old buf.new result }
{
    let mut at = 0;
    for i in 0..n {
        let from = 9 * i;
        let to = 8 * i + n;
        at += put_naturals(&mut buf[at..], &cross[from..to]);
    }
    at
}

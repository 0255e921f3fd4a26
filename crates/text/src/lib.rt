// Writers of text into a lent buffer: bytes, decimal numbers, and lines of them.
#![tactic(auto)]

pub mod line;
pub mod numbers;
pub mod page;
pub mod rows;

ghost use Rattle.std.specs.Prelude.{◌∷◌, [], ◌≤◌, length};
ghost use Rattle.text.specs.Decimal.{digits, number};
ghost use Rattle.text.specs.Put.{Put, Sized};

const MINUS: u8 = b'-';

// Digits are written here. No plainer: `itoa` formats in a buffer of its own, to be copied, and `write!` answers a Result to be shown Ok.

// How many digits x has.
pub(crate) fn natural_length(x: u64) -> usize
    ensures { Sized (digits x) 20 result }
{
    match x.checked_ilog10() {
        Some(power) => power as usize + 1,
        None => 1,
    }
}

// How many bytes z's text has, its minus counted.
pub(crate) fn number_length(z: i64) -> usize
    ensures { Sized (number z) 20 result }
{
    let n = natural_length(integer::magnitude(z));
    if z < 0 { 1 + n } else { n }
}

// Each writer puts its text at the front of the buffer that it is given, and answers how long it is.
pub fn put_byte(buf: &mut [u8], b: u8) -> usize
    requires { 1 ≤ length buf.old }
    ensures { Put (b ∷ []) 0 buf.old buf.new result }
{
    buf[0] = b;
    1
}

pub(crate) fn put<T: Copy>(buf: &mut [T], text: &[T]) -> usize
    requires { length text.now ≤ length buf.old }
    ensures { Put text.now 0 buf.old buf.new result }
{
    buf[..text.len()].copy_from_slice(text);
    text.len()
}

pub fn put_bytes(buf: &mut [u8], text: &[u8]) -> usize
    requires { length text.now ≤ length buf.old }
    ensures { Put text.now 0 buf.old buf.new result }
{
    put(buf, text)
}

// The digits before the last one are written first.
pub fn put_natural(buf: &mut [u8], x: u64) -> usize
    requires { length (digits x) ≤ length buf.old }
    ensures { Put (digits x) 0 buf.old buf.new result }
{
    if x < 10 {
        put_byte(buf, b'0' + x as u8)
    } else {
        let at = put_natural(buf, x / 10);
        at + put_byte(&mut buf[at..], b'0' + (x % 10) as u8)
    }
}

pub fn put_number(buf: &mut [u8], z: i64) -> usize
    requires { length (number z) ≤ length buf.old }
    ensures { Put (number z) 0 buf.old buf.new result }
{
    let size = integer::magnitude(z);
    if z < 0 {
        let at = put_byte(buf, MINUS);
        at + put_natural(&mut buf[at..], size)
    } else {
        put_natural(buf, size)
    }
}

// Lines of text: a letter, then numbers, each after a tab.

use std::fmt::Display;
use std::io;

pub fn number(rt: &impl Print, x: impl Display + Drop) -> io::Result<()> {
    print!(rt; "\t{x}")
}

pub fn end(rt: &impl Print) -> io::Result<()> {
    println!(rt)
}

// Eight lines of eight numbers.
pub fn array(rt: &impl Print, a: &[[i64; 8]; 8]) -> io::Result<()> {
    for row in a {
        for x in row {
            number(rt, *x)?;
        }
        end(rt)?;
    }
    Ok(())
}

fn folded(sum: u64, x: i64) -> u64 {
    let next = (sum % 2147483647 * 48271 + integer::magnitude(x) % 2147483647) % 2147483647;
    if x < 0 { 2147483647 - next } else { next }
}

// One number for the 64 of an array, taken row after row.
pub fn digest(a: &[[i64; 8]; 8]) -> u64 {
    let mut sum = 0;
    for row in a {
        for x in row {
            sum = folded(sum, *x);
        }
    }
    sum
}

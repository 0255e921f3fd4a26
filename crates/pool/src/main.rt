// Reads two job texts from the files that its two arguments name, and prints the report of both jobs pooled, or the refusal; or `?` and the number of
// an argument.
#![tactic(auto)]

use input::{open_argument, read_readable};
use job_pool::arguments::{put_wrong_argument, wrong_argument};
use job_pool::texts::answer;
use limits::MOST_BYTES;
use std::env::FillError;
use std::io;
use std::io::Read;
use std::rt::Env;

// How many words the program was started with, its own name among them. More than 4 count as 4, and fewer than 3 as 3.
fn words(rt: &impl Env) -> usize {
    if let Err(FillError::NotPresent) = rt.arg(3, &mut []) {
        3
    } else {
        4
    }
}

// Both files are read before either is judged.
fn print_pooled<F: Read + Drop>(rt: &impl Print, mut first: F, mut second: F) -> io::Result<()> {
    let mut text1 = [0u8; MOST_BYTES];
    let n1 = read_readable(&mut first, &mut text1);
    let mut text2 = [0u8; MOST_BYTES];
    let n2 = read_readable(&mut second, &mut text2);
    let mut out = [0u8; 2048];
    let length = answer(&text1[..n1], &text2[..n2], &mut out);
    rt.write_all(&out[..length])
}

fn print_wrong(rt: &impl Print, number: u32) -> io::Result<()> {
    let mut out = [0u8; 2048];
    let length = put_wrong_argument(number, &mut out);
    rt.write_all(&out[..length])
}

#[tactic(auto, unfolding(job_pool::specs::Arguments::wrong_argument))]
fn main(rt: HostRuntime) -> io::Result<()> {
    let first = open_argument(&rt, 1);
    let second = open_argument(&rt, 2);
    // No plainer: with `let .. else` the numbers 1 and 2 would stand here, where no contract says which is printed, as `wrong_argument`'s does.
    match wrong_argument(first.is_some(), second.is_some(), words(&rt)) {
        Some(number) => print_wrong(&rt, number),
        None => print_pooled(&rt, first.unwrap(), second.unwrap()),
    }
}

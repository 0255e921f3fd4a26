// Tables of 210 sample sets, a line each: n, k, e and the n × n entries row after row, parted by tabs. What it must write comes from an
// independent computation by the same rule.
//
// Set c, from 0 to 209, has n = 2 + c mod 7 channels, the kind (c div 7) mod 6, and k samples: 2 if c mod 5 is 0, 256 if it is 1, else
// 2 + draw(c) mod 255. With s counting samples and p counting counts from 0, row after row, a = 2048 × c + s or 2048 × c + p:
//
//     kind   dilution of sample s             count at p
//     0      1                                0
//     1      100                              65535
//     2      100                              65535 if p div n + p mod n is even, else 0
//     3      1 + draw(a) mod 100              draw(a)
//     4      1                                draw(a) mod 8
//     5      1 if draw(a) is even, else 100   draw(a)
//
// draw(a) = ((a × 69069 + 1) mod 2^31 × 1103515245 + 12345) mod 2^31 div 2^15.
#![tactic(auto)]

ghost use Rattle.std.specs.Prelude.{◌^◌, ◌<◌, ◌≤◌};
ghost use Rattle.sums.specs.inner.Ranges.{Room};
ghost use Rattle.limits.specs.Limits.{most_count, most_dilution};

use readings::Samples;
use scatter::table::Table;
use std::{array, io};

fn draw(a: u64) -> u64
    requires { a < 2 ^ 32 }
    ensures { result ≤ 65_535 }
{
    let x = (a * 69069 + 1) % 2147483648;
    (x * 1103515245 + 12345) % 2147483648 / 32768
}

fn samples_of(c: u64) -> usize
    requires { c < 210 }
    ensures { result ≤ 256 }
{
    match c % 5 {
        0 => 2,
        1 => 256,
        _ => (2 + draw(c) % 255) as usize,
    }
}

fn dilution_at(c: u64, s: u64) -> u64
    requires { (c < 210) × (s < 2048) }
    ensures { result ≤ 100 }
{
    match c / 7 % 6 {
        1 | 2 => 100,
        3 => 1 + draw(2048 * c + s) % 100,
        5 if draw(2048 * c + s) % 2 == 1 => 100,
        _ => 1,
    }
}

fn count_at(c: u64, n: u64, p: u64) -> u64
    requires { (c < 210) × (0 < n) × (p < 2048) }
    ensures { result ≤ 65_535 }
{
    match c / 7 % 6 {
        0 => 0,
        1 => 65535,
        2 if p / n % 2 == p % n % 2 => 65535,
        2 => 0,
        4 => draw(2048 * c + p) % 8,
        _ => draw(2048 * c + p),
    }
}

// More dilutions than a set has samples, and more counts than it holds.
fn dilutions_of(c: u64) -> [u32; 256]
    requires { c < 210 }
    ensures { Room 256 most_dilution result }
{
    array::from_fn(|s| dilution_at(c, s as u64) as u32)
}

fn counts_of(c: u64, n: u64) -> [u32; 2048]
    requires { (c < 210) × (0 < n) }
    ensures { Room 2048 most_count result }
{
    array::from_fn(|p| count_at(c, n, p as u64) as u32)
}

fn channels_of(c: u64) -> usize
    ensures { (0 < result) × (result ≤ 8) }
{
    (2 + c % 7) as usize
}

fn table_at(c: u64) -> Table
    requires { c < 210 }
{
    let n = channels_of(c);
    let k = samples_of(c);
    let dilutions = dilutions_of(c);
    let counts = counts_of(c, n as u64);
    let held = n * k;
    scatter::table::table_of_readings(&Samples {
        n,
        dilutions: &dilutions[..k],
        counts: &counts[..held],
    })
}

fn print_entry(rt: &impl Print, u: i64) -> io::Result<()> {
    print!(rt; "\t{u}")
}

fn print_entries(rt: &impl Print, entries: &[i64]) -> io::Result<()> {
    for u in entries {
        print_entry(rt, *u)?;
    }
    Ok(())
}

fn print_table(rt: &impl Print, c: u64) -> io::Result<()>
    requires { c < 210 }
{
    let n = channels_of(c);
    let k = samples_of(c);
    let t = table_at(c);
    let e = t.e;
    print!(rt; "{n}\t{k}\t{e}")?;
    let entries = t.entries;
    print_entries(rt, &entries[..n * n])?;
    println!(rt)
}

fn main(rt: HostRuntime) -> io::Result<()> {
    for c in 0..210 {
        print_table(&rt, c)?;
    }
    Ok(())
}

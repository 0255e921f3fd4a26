// The lines that are printed for the number k: what rounding, choice and turn give on the values of k.
ghost use Rattle.std.specs.Prelude.{◌<◌, ◌≤◌, ◌+◌, ◌/◌, ◌^◌, nat_abs};

use crate::{generator, text};
use choice::Turn;
use std::io;
use turn::pair::Rotation;

// R u w rnd(u/w)
pub fn rounded(rt: &impl Print, k: u64) -> io::Result<()>
    requires { k < 2 ^ 20 }
{
    let u = generator::value(8 * k, 0x4010_0000_0000_0000);
    let w = generator::size(8 * k + 1, 0x7ff_ffff_ffff) + 1;
    rounded_of(rt, "R", u, w)
}

// A letter, u w rnd(u/w), of every u and w that rounding takes
fn rounded_of(rt: &impl Print, letter: &str, u: i64, w: u64) -> io::Result<()>
    requires { (0 < w) × (w < 2 ^ 63) × (nat_abs u + w / 2 < 2 ^ 63) }
{
    print!(rt; "{letter}")?;
    text::number(rt, u)?;
    text::number(rt, w)?;
    text::number(rt, rounding::nearest(u, w))?;
    text::end(rt)
}

// The largest u for the smallest w, and for the largest w the least u that is rounded away from zero and the greatest that is not.
pub fn largest_rounded(rt: &impl Print) -> io::Result<()> {
    rounded_of(rt, "R", 9_223_372_036_854_775_807, 1)?;
    rounded_of(rt, "R", -9_223_372_036_854_775_807, 1)?;
    rounded_of(
        rt,
        "R",
        4_611_686_018_427_387_904,
        9_223_372_036_854_775_807,
    )?;
    rounded_of(
        rt,
        "R",
        -4_611_686_018_427_387_904,
        9_223_372_036_854_775_807,
    )?;
    rounded_of(
        rt,
        "R",
        4_611_686_018_427_387_903,
        9_223_372_036_854_775_807,
    )?;
    rounded_of(
        rt,
        "R",
        -4_611_686_018_427_387_903,
        9_223_372_036_854_775_807,
    )
}

// H u w rnd(u/w), with w even and u a multiple of w/2: a half where it is an odd one
pub fn half(rt: &impl Print, k: u64) -> io::Result<()>
    requires { k < 2 ^ 20 }
{
    let h = generator::size(8 * k + 2, 0x3ff_ffff_ffff) + 1;
    let size = generator::product(generator::size(8 * k + 3, 0x4_0000), h);
    let u = generator::with_sign(8 * k + 3, size);
    rounded_of(rt, "H", u, 2 * h)
}

fn sign(rt: &impl Print, minus: bool) -> io::Result<()> {
    if minus {
        print!(rt; "\t-1")
    } else {
        print!(rt; "\t1")
    }
}

// l and f of a choice, or none
fn chosen(rt: &impl Print, choice: Option<Turn>) -> io::Result<()> {
    match choice {
        Some(turn) => {
            text::number(rt, turn.l)?;
            sign(rt, turn.minus)?;
        }
        None => print!(rt; "\tnone")?,
    }
    text::end(rt)
}

// C a_pp a_qq a_pq, then l and f
pub fn choice(rt: &impl Print, k: u64) -> io::Result<()>
    requires { k < 2 ^ 20 }
{
    let app = generator::value(8 * k + 4, 0x4_0000_0700);
    let aqq = generator::value(8 * k + 5, 0x4_0000_0700);
    let apq = generator::value(8 * k + 6, 0x4_0000_0700);
    print!(rt; "C")?;
    text::number(rt, app)?;
    text::number(rt, aqq)?;
    text::number(rt, apq)?;
    chosen(rt, choice::choose_turn(app, aqq, apq))
}

// The largest g that T_l lets through beside |a_pq| = m: the whole part of 2m × 2^24 / T_l
#[tactic(auto, using(crate::proofs::Values::thresholds))]
fn largest_gap(m: u64, l: u32) -> u64
    requires { (m ≤ 512) × (1 ≤ l) × (l ≤ 14) }
    ensures { result ≤ 2 ^ 34 }
{
    m * 0x200_0000 / choice::threshold_of(l)
}

// B a_qq a_pq, then l and f, for a_pp = 0 and an a_qq at a threshold: the last that T_l lets through, or the next
pub fn bound(rt: &impl Print, k: u64) -> io::Result<()>
    requires { k < 2 ^ 20 }
{
    let m = generator::size(8 * k + 7, 511) + 1;
    let g = largest_gap(m, generator::pick(k, 14) as u32 + 1) + k % 2;
    let aqq = generator::with_sign(8 * k, g);
    let apq = generator::with_sign(8 * k + 7, m);
    print!(rt; "B")?;
    text::number(rt, aqq)?;
    text::number(rt, apq)?;
    chosen(rt, choice::choose_turn(0, aqq, apq))
}

// T n p q l f, then a digest of the new matrix and one of the new axes; both in whole where k is a multiple of 32
#[tactic(auto, using(crate::proofs::Values::turns))]
fn turned(
    rt: &impl Print,
    k: u64,
    n: usize,
    p: usize,
    q: usize,
    l: u32,
    minus: bool,
) -> io::Result<()>
    requires { (k < 2 ^ 20) × (p < q) × (q < n) × (n ≤ 8) × (1 ≤ l) × (l ≤ 14) }
{
    let r = Rotation::of(l, minus);
    let a = turn::turn_matrix(generator::matrix(4096 * k), n, r, p, q);
    let mut v = generator::axes(4096 * k + 1024);
    turn::turn_axes(&mut v, n, r, p, q);
    print!(rt; "T")?;
    text::number(rt, n)?;
    text::number(rt, p + 1)?;
    text::number(rt, q + 1)?;
    text::number(rt, l)?;
    sign(rt, minus)?;
    text::number(rt, text::digest(&a))?;
    text::number(rt, text::digest(&v))?;
    text::end(rt)?;
    if k % 32 == 0 {
        text::array(rt, &a)?;
        text::array(rt, &v)?;
    }
    Ok(())
}

pub fn turn(rt: &impl Print, k: u64) -> io::Result<()>
    requires { k < 2 ^ 20 }
{
    let n = generator::pick(4 * k, 7) + 2;
    let q = generator::pick(4 * k + 1, n - 1) + 1;
    let p = generator::pick(4 * k + 2, q);
    let l = generator::pick(4 * k + 3, 14) + 1;
    turned(
        rt,
        k,
        n as usize,
        p as usize,
        q as usize,
        l as u32,
        generator::minus(k),
    )
}

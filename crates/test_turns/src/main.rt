// Test program: rounding, choice and turn on 300 sets of values, which follow this rule; then rounding of the largest numbers that it takes.
//
// draw(k) is x² mod P, where P is 2^31 − 1 and x is 742938285 × k mod P. A value has a number k and a greatest size `most`.
// With w = 2^31 × draw(3k) + draw(3k + 1) and d = draw(3k + 2), its size is, by d mod 4: 0, w mod 4; 1, most − w mod 4; 2,
// w mod (most + 1); 3, the whole part of w / 2^s, mod (most + 1), where s is the whole part of d / 4, mod 62. It is negative
// where the whole part of d / 256 is odd.
#![tactic(auto)]

mod generator;
mod lines;
mod text;

use std::io;

fn main(rt: HostRuntime) -> io::Result<()> {
    for k in 0..300 {
        lines::rounded(&rt, k)?;
        lines::half(&rt, k)?;
        lines::choice(&rt, k)?;
        lines::bound(&rt, k)?;
        lines::turn(&rt, k)?;
    }
    lines::largest_rounded(&rt)
}

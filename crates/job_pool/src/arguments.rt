// The arguments of the program `pool`: which is wrong, and the line that says so.
ghost use Rattle.std.specs.Prelude.{◌≡◌};
ghost use Rattle.text.specs.Put.{Put};
ghost use Rattle.job_pool.specs.Arguments.{wrong_argument, wrong_argument_line};

// The number of the first argument that is wrong.
#[tactic(auto, unfolding(crate::specs::Arguments::wrong_argument))]
pub fn wrong_argument(first: bool, second: bool, words: usize) -> Option<u32>
    ensures { result ≡ wrong_argument first second words }
{
    if !first {
        Some(1)
    } else if !second {
        Some(2)
    } else if words > 3 {
        Some(3)
    } else {
        None
    }
}

// What the program then prints, at the front of the buffer.
pub fn put_wrong_argument(number: u32, out: &mut [u8; 2048]) -> usize
    ensures { Put (wrong_argument_line number) 0 out.old out.new result }
{
    text::line::put_line(out, b'?', &[i64::from(number)])
}

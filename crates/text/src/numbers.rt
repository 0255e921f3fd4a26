// Numbers written into a lent buffer.
ghost use Rattle.std.specs.Prelude.{◌≤◌, length};
ghost use Rattle.text.specs.Put.{Put};

// The values, at the front of the buffer; the answer is how many they are.
pub fn put(out: &mut [i64], values: &[i64]) -> usize
    requires { length values.now ≤ length out.old }
    ensures { Put values.now 0 out.old out.new result }
{
    crate::put(out, values)
}

// Where a part of a text ends.
ghost use Rattle.std.specs.Prelude.{◌≤◌, length};
ghost use Rattle.call_text.specs.inner.Parts.{Found};

// The first place from `from` on that has the byte, or the text's end.
pub fn find(text: &[u8], from: usize, byte: u8) -> usize
    requires { from ≤ length text.now }
    ensures { Found byte text.now from result }
{
    match text[from..].iter().position(|b| *b == byte) {
        Some(k) => from + k,
        None => text.len(),
    }
}

// A field of a line of job text: a tag, or a number and what ends it. Document 01, "Job text and report".
ghost use Rattle.std.specs.Prelude.{◌≡◌};
ghost use Rattle.job.specs.inner.FieldScan.{tagged_at, may_follow, digits_at, field_at};

// Whether the tag and a tab stand at a place of the text.
#[tactic(auto, using(crate::proofs::ProvedBy::tagged))]
pub(crate) fn tagged(text: &[u8], at: usize, tag: u8) -> bool
    ensures { result ≡ tagged_at text.now at tag }
{
    match text.get(at..) {
        Some([first, second, ..]) => *first == tag && *second == b'\t',
        _ => false,
    }
}

// Document 01's form for the field reader is an enum of its own: each line's reader takes the number by `let .. else`.
#[derive(Clone, Copy)]
pub enum Field {
    // The number, and the place after the tab that parts it from the next field.
    Inner(u32, usize),
    // The number, and the place after the line feed that ends its line.
    Last(u32, usize),
    // No number of document 01, or neither a tab nor a line feed after it.
    Bad,
}

// Digits of up to this value may have one after them: 6 of the 7.
const MOST_BEFORE: u32 = limits::MOST_NUMBER / 10;

// Whether a byte is a digit that may follow digits of this value: 7 digits at most, and none after a leading zero.
#[tactic(auto, unfolding(crate::specs::inner::FieldScan::may_follow, integer::specs::Within::within))]
fn may_follow(value: u32, b: u8) -> bool
    ensures { result ≡ may_follow value b }
{
    0 < value && value <= MOST_BEFORE && b.is_ascii_digit()
}

// The rest of a field after digits of this value.
// No plainer: `str::parse` takes a plus and leading zeros and wants a str, whose end would be looked for first, with the same tests.
#[tactic(auto, using(crate::proofs::ProvedBy::digits))]
fn digits(text: &[u8], from: usize, start: u32) -> Field
    ensures { result ≡ digits_at text.now from start }
{
    let mut value = start;
    for at in from..text.len() {
        match text[at] {
            b'\t' => return Field::Inner(value, at + 1),
            b'\n' => return Field::Last(value, at + 1),
            b if may_follow(value, b) => value = value * 10 + u32::from(b - b'0'),
            _ => return Field::Bad,
        }
    }
    Field::Bad
}

// The field that starts at a place of the text.
#[tactic(auto, using(crate::proofs::ProvedBy::number))]
pub(crate) fn number(text: &[u8], at: usize) -> Field
    ensures { result ≡ field_at text.now at }
{
    match text.get(at) {
        Some(first) if first.is_ascii_digit() => digits(text, at + 1, u32::from(*first - b'0')),
        _ => Field::Bad,
    }
}

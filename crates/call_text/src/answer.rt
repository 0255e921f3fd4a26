// The line that an answer prints.
ghost use Rattle.std.specs.Prelude.{[], ◌∷◌, map, ◌≡◌, ◌+◌, ◌*◌, ◌≤◌, length, take};
ghost use Rattle.text.specs.Decimal.{digits, number};
ghost use Rattle.text.specs.Line.{line};
ghost use Rattle.text.specs.Put.{Put};
ghost use Rattle.refusal.specs.Refusal.{number_of};
ghost use Rattle.call_text.specs.Answers.{shown};

use record::Answer;
use refusal::Refusal;
use text::line::{LINE_FEED, put_natural_field, put_numbers};
use text::page::Page;
use text::{put_byte, put_bytes};

// A call's answer, and what its line says beside it: row i of v of an axis call, else 0; the record's channels and its counts of refused calls.
#[derive(Clone, Copy)]
pub struct Told {
    pub answer: Answer,
    pub row: [i64; 8],
    pub n: usize,
    pub refused: [u32; 4],
}

fn fixed(text: &[u8]) -> Page<256>
    requires { length text.now ≤ 256 }
    ensures { result ≡ text.now }
{
    let mut bytes = [0u8; 256];
    let len = put_bytes(&mut bytes, text);
    Page::new(bytes, len)
}

// A tag and the numbers, at the front of the buffer; the answer is how long the line is.
fn put_naturals_line(buf: &mut [u8], tag: u8, xs: &[u64]) -> usize
    requires { 2 + 21 * length xs.now ≤ length buf.old }
    ensures { Put (line ((tag ∷ []) ∷ map digits xs.now)) 0 buf.old buf.new result }
{
    let mut at = put_byte(buf, tag);
    for x in xs {
        at += put_natural_field(&mut buf[at..], *x);
    }
    at + put_byte(&mut buf[at..], LINE_FEED)
}

// A tag and so many numbers that the line fits its page whatever they are.
pub fn numbers_line<const N: usize>(tag: u8, xs: &[u64]) -> Page<N>
    requires { 2 + 21 * length xs.now ≤ N }
    ensures { result ≡ line ((tag ∷ []) ∷ map digits xs.now) }
{
    let mut bytes = [0u8; N];
    let len = put_naturals_line(&mut bytes, tag, xs);
    Page::new(bytes, len)
}

// `A` a_ii r_i and the n numbers of row i of v.
fn axis_line(entry: i64, error: u64, row: [i64; 8], n: usize) -> Page<256>
    requires { n ≤ 8 }
    ensures { result ≡ line ((65 ∷ []) ∷ number entry ∷ digits error ∷ map number (take n row)) }
{
    let mut bytes = [0u8; 256];
    let mut at = put_byte(&mut bytes, b'A');
    at += put_numbers(&mut bytes[at..], &[entry]);
    at += put_natural_field(&mut bytes[at..], error);
    at += put_numbers(&mut bytes[at..], &row[..n]);
    let len = at + put_byte(&mut bytes[at..], LINE_FEED);
    Page::new(bytes, len)
}

// `X`, the refusal's number and the four counts.
fn refused_line(refusal: Refusal, counts: [u32; 4]) -> Page<256>
    ensures { result ≡ line ((88 ∷ []) ∷ digits (number_of refusal) ∷ map digits counts) }
{
    let [x, y, z, u] = counts.map(u64::from);
    numbers_line(b'X', &[u64::from(refusal.number()), x, y, z, u])
}

#[tactic(auto, using(crate::proofs::Printing::shows), unfolding(crate::specs::Answers::shown, crate::specs::Answers::shown_as))]
pub fn answer_line(told: Told) -> Page<256>
    requires { told.n ≤ 8 }
    ensures { result ≡ shown told }
{
    match told.answer {
        Answer::Loaded => fixed(b"L\n"),
        Answer::SamplesLoaded(e) => numbers_line(b'M', &[u64::from(e)]),
        Answer::Turned(made) => numbers_line(b'T', &[u64::from(made)]),
        Answer::Swept(turns) => numbers_line(b'W', &[turns]),
        Answer::TournamentSwept(turns) => numbers_line(b'O', &[turns]),
        Answer::Pair { p, q } => numbers_line(b'Q', &[p as u64, q as u64]),
        Answer::NoPair => fixed(b"Q\tnone\n"),
        Answer::Axis { entry, error } => axis_line(entry, error, told.row, told.n),
        Answer::Refused(refusal) => refused_line(refusal, told.refused),
    }
}

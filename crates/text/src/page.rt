// A text of at most N bytes, in an array.
ghost use Rattle.std.specs.Prelude.{[], ◌≡◌, ◌≤◌, length, take};
ghost use Rattle.text.specs.Page.{Filled};

use std::marker::Model;

// Rule of the project needs it: memory is fixed, so that the bytes have their number beside them. Clauses see the text alone.
#[derive(Clone, Copy)]
pub struct Page<const N: usize> {
    bytes: [u8; N],
    len: usize,
}

impl<const N: usize> Model for Page<N> {
    ghost use Rattle.std.specs.Prelude.{ℕ, List, ◌++◌, drop, length, replicate, take};
    ghost use Rattle.text.specs.Page.{Filled};
    ghost use Rattle.text.specs.laws.Page.{page_back};

    ghost Value = { List ℕ };

    ghost view = { λ p. take p.len p.bytes };

    ghost invariant = { λ p. Filled N p.bytes p.len };

    ghost inverse = { λ t. record { bytes = t ++ drop (length t) (replicate N 0); len = length t } };

    ghost inverse_ok = { λ p h i. let b = page_back N p.bytes p.len h in record { bytes = b.0 i; len = b.1 i } };
}

impl<const N: usize> Page<N> {
    pub fn empty() -> Self
        ensures { result ≡ [] }
    {
        Page {
            bytes: [0; N],
            len: 0,
        }
    }

    // The first `len` bytes, after which all are 0.
    pub fn new(bytes: [u8; N], len: usize) -> Self
        requires { Filled N bytes len }
        ensures { result ≡ take len bytes.entry }
    {
        Page { bytes, len }
    }

    pub fn text(&self) -> &[u8]
        ensures is { result.now ≡ self.now }
        ensures within { length self.now ≤ N }
    {
        &self.bytes[..self.len]
    }
}

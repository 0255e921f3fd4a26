// A book of samples, with a summary beside them: their number, channel sums and cross sums. A sample is added at the end, or the i-th is struck,
// and the summary is brought up to date by that sample alone.
#![tactic(auto)]

mod arrays;
mod checks;
mod rebuild;

ghost use Rattle.std.specs.Prelude.{◌≡◌, Err};
ghost use Rattle.refusal.specs.Refusal.{judged};
ghost use Rattle.sums.specs.Sums.{sums_of};
ghost use Rattle.book.specs.Book.{empty_book, no_book, samples_in};
ghost use Rattle.book.specs.Calls.{add, begin, book_after, book_refusal, read_summary, rebuild, strike};
ghost use Rattle.book.specs.Consistent.{Consistent};
ghost use Rattle.book.specs.Done.{Changes, table_to};

use arrays::{close_up, put_counts};
use checks::{check_add, check_channels, check_strike, check_table};
use readings::Samples;
use refusal::Refusal;
use scatter::table::Table;
use sums::Sums;

// The samples of n channels, a dilution each and n counts each, sample after sample, and 0 after them; n is 0 where no book is begun.
// Rule of the project: no heap, so the arrays have room for the most samples.
// No plainer: a ghost field that says `Consistent` would leave no book of any samples, and the definitions compare with those (`book_with`).
#[derive(Clone, Copy)]
pub struct Book {
    n: usize,
    summary: Sums,
    dilutions: [u32; 256],
    counts: [u32; 2048],
}

// What a call that is not refused answers: `Added` and `Struck` with the number of samples now held. `Summed` and `Tabled` stand for the calls that
// only ask: their methods give the sums and the table.
#[derive(Clone, Copy, Debug, PartialEq, Eq)]
pub enum BookAnswer {
    Begun,
    Added(u64),
    Struck(u64),
    Summed,
    Tabled,
}

// The answer, and the book after the call.
#[derive(Drop)]
pub struct Changed {
    pub answer: Result<BookAnswer, Refusal>,
    pub book: Book,
}

// An empty book for n channels.
fn empty_book(n: usize) -> Book
    ensures { result ≡ empty_book n }
{
    Book {
        n,
        summary: Sums {
            k: 0,
            channel: [0; 8],
            cross: [0; 64],
        },
        dilutions: [0; 256],
        counts: [0; 2048],
    }
}

// The book with one sample more at its end.
#[tactic(auto, using(crate::proofs::Changing::adding))]
fn with_sample(b: Book, dilution: u32, counts: &[u32]) -> Book
    requires { Consistent b × (book_refusal b.n b.summary.k (add dilution counts.now) ≡ 0) }
    ensures { result ≡ book_after b (add dilution counts.now) }
{
    let k = b.summary.k as usize;
    let more = sums::sums_of(&Samples {
        n: b.n,
        dilutions: &[dilution],
        counts,
    });
    let mut dilutions = b.dilutions;
    dilutions[k] = dilution;
    let mut all = b.counts;
    put_counts(&mut all, b.n * k, counts);
    Book {
        n: b.n,
        summary: sums::plus(b.summary, more),
        dilutions,
        counts: all,
    }
}

// The book without its i-th sample.
#[tactic(auto, using(crate::proofs::Changing::striking))]
fn without_sample(b: Book, i: usize) -> Book
    requires { Consistent b × (book_refusal b.n b.summary.k (strike i) ≡ 0) }
    ensures { result ≡ book_after b (strike i) }
{
    let s = i - 1;
    let n = b.n;
    let k = b.summary.k as usize;
    let mut dilutions = b.dilutions;
    let mut counts = b.counts;
    let from = n * s;
    let end = from + n;
    let dilution = dilutions[s];
    let part = sums::sums_of(&Samples {
        n,
        dilutions: &[dilution],
        counts: &counts[from..end],
    });
    close_up(&mut dilutions, s, 1);
    close_up(&mut counts, from, n);
    Book {
        n,
        summary: sums::minus(b.summary, part),
        dilutions,
        counts,
    }
}

impl Book {
    // Before one is begun: every other call is refused 2.
    #[tactic(auto, using(crate::proofs::Answering::standing), unfolding(crate::specs::Book::empty_book, crate::specs::Book::no_book))]
    pub fn none() -> Self
        ensures { (result ≡ no_book) × Consistent result }
    {
        empty_book(0)
    }

    // A refused call leaves the book as it was.
    fn refused(self, refusal: Refusal) -> Changed
        ensures { result ≡ record { answer = Err refusal; book = self } }
    {
        Changed {
            answer: Err(refusal),
            book: self,
        }
    }

    // An empty book for n channels in place of this one. 'A summary for n outside 2..8 gets 2.'
    pub fn begin(self, n: usize) -> Changed
        requires { Consistent self }
        ensures { Changes self (begin n) result }
    {
        if let Err(refusal) = check_channels(n) {
            return self.refused(refusal);
        }
        Changed {
            answer: Ok(BookAnswer::Begun),
            book: empty_book(n),
        }
    }

    // 'Adding a sample at the end'.
    pub fn add(self, dilution: u32, counts: &[u32]) -> Changed
        requires { Consistent self }
        ensures { Changes self (add dilution counts.now) result }
    {
        if let Err(refusal) = check_add(self.n, self.summary.k, dilution, counts) {
            return self.refused(refusal);
        }
        let book = with_sample(self, dilution, counts);
        Changed {
            answer: Ok(BookAnswer::Added(book.summary.k)),
            book,
        }
    }

    // '.. or striking the i-th, after which the later ones move up one place'.
    pub fn strike(self, i: usize) -> Changed
        requires { Consistent self }
        ensures { Changes self (strike i) result }
    {
        if let Err(refusal) = check_strike(self.n, self.summary.k, i) {
            return self.refused(refusal);
        }
        let book = without_sample(self, i);
        Changed {
            answer: Ok(BookAnswer::Struck(book.summary.k)),
            book,
        }
    }

    // How many channels it is for, or 0.
    pub fn channels(self) -> usize
        ensures { result ≡ self.n }
    {
        self.n
    }

    // The number of samples, the channel sums and the cross sums.
    #[tactic(auto, using(crate::proofs::Answering::standing))]
    pub fn summary(self) -> Sums
        requires { Consistent self }
        ensures { result ≡ sums_of (samples_in self) }
    {
        self.summary
    }

    // Whether a call that asks for the summary or for a rebuild is refused.
    #[tactic(auto, unfolding(crate::specs::Calls::book_refusal))]
    pub fn summary_answer(self) -> Result<(), Refusal>
        ensures read { result ≡ judged (book_refusal self.n self.summary.k read_summary) (record {}) }
        ensures rebuilt { result ≡ judged (book_refusal self.n self.summary.k rebuild) (record {}) }
    {
        check_channels(self.n)
    }

    // The table, by the summary alone: 'a table from such a summary gets 3, from any other it is document 01's'.
    pub fn table(self) -> Result<Table, Refusal>
        requires { Consistent self }
        ensures { result ≡ table_to self }
    {
        check_table(self.n, self.summary.k)?;
        Ok(scatter::table::table_of(self.n, self.summary))
    }
}

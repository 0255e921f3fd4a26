// A season of texts that stand one after another in one buffer, each to before its end.
ghost use Rattle.std.specs.Prelude.{true, ◌≡◌, length};
ghost use Rattle.refusal.specs.Refusal.{judged};
ghost use Rattle.season_report.specs.Texts.{WritesSeason, ends_refusal, ends_within, texts_season};

use crate::Season;
use refusal::Refusal;

// Whether no end is below the one before it, or beyond the buffer.
fn ends_within(size: usize, ends: &[usize]) -> bool
    ensures { result ≡ ends_within 0 size ends.now }
{
    let mut start = 0;
    for &end in ends {
        if end < start || size < end {
            return false;
        }
        start = end;
    }
    true
}

fn check_ends(size: usize, ends: &[usize]) -> Result<(), Refusal>
    ensures { result ≡ judged (ends_refusal size ends.now) (record {}) }
{
    if !ends_within(size, ends) {
        return Err(Refusal::OutOfRange);
    }
    if Season::MOST_JOBS < ends.len() as u64 {
        return Err(Refusal::TooManyJobs);
    }
    Ok(())
}

fn season_of(texts: &[u8], ends: &[usize]) -> Season
    requires { ends_within 0 (length texts.now) ends.now ≡ true }
    ensures { result ≡ texts_season texts.now ends.now }
{
    let mut season = Season::new();
    let mut start = 0;
    for &end in ends {
        let taken = season.take(&texts[start..end]);
        season = taken.next;
        start = end;
    }
    season
}

// The line of the season; the ends are judged before a text is read, and the length is known before the first byte is written.
pub fn write_season(texts: &[u8], ends: &[usize], out: &mut [u8]) -> Result<usize, Refusal>
    ensures { WritesSeason texts.now ends.now out.old out.new result }
{
    check_ends(texts.len(), ends)?;
    season_of(texts, ends).write_line(out)
}

// Prints the line of the season whose jobs are in the files that its arguments name; for more than 10,000 of them that of the first 10,000 and the
// line of refusal 16; or `?` and the number of the first argument whose file can't be opened.
#![tactic(auto)]

ghost use Rattle.std.specs.Prelude.{◌+◌, ◌≤◌, IfErr, IfSome, length};
ghost use Rattle.limits.specs.Limits.{most_jobs};

use limits::MOST_BYTES;
use refusal::Refusal;
use season_report::Season;
use std::env::FillError;
use std::fs::Files;
use std::io;
use std::rt::Env;

// The most bytes of a season's line.
const LINE: usize = 252;

// How many bytes of the file that argument i names were read, at most 16,384 of them, or none where it can't be opened. A name that is empty, too
// long or no text is that of no file.
fn read_file<R: Env + Files>(rt: &R, i: usize, text: &mut [u8; MOST_BYTES]) -> Option<usize>
    ensures { IfSome result (λ n. n ≤ length text.new) }
{
    let mut file = input::open_argument(rt, i)?;
    Some(input::read_readable(&mut file, text))
}

// The season of the files; or the number of the first argument without one, from 1.
fn take_files<R: Env + Files>(rt: &R, files: usize) -> Result<Season, usize>
    requires { files ≤ most_jobs }
    ensures { IfErr result (λ missing. missing ≤ files) }
{
    let mut season = Season::new();
    let mut text = [0u8; MOST_BYTES];
    for i in 1..=files {
        let Some(length) = read_file(rt, i, &mut text) else {
            return Err(i);
        };
        season = season.take(&text[..length]).next;
    }
    Ok(season)
}

fn print_number(rt: &impl Print, tag: u8, number: usize) -> io::Result<()>
    requires { number ≤ most_jobs }
{
    let mut out = [0u8; 32];
    let length = text::line::put_line(&mut out, tag, &[number as i64]);
    rt.write_all(&out[..length])
}

fn print_season(rt: &impl Print, season: Season) -> io::Result<()> {
    let mut out = [0u8; LINE];
    match season.write_line(&mut out) {
        Ok(length) => rt.write_all(&out[..length]),
        Err(_) => Ok(()),
    }
}

// How many arguments name files; of more than `most`, one more than it.
fn files_named(rt: &impl Env, most: usize) -> usize
    requires { most ≤ most_jobs }
    ensures { result ≤ most + 1 }
{
    for files in 0..=most {
        if let Err(FillError::NotPresent) = rt.arg(files + 1, &mut []) {
            return files;
        }
    }
    most + 1
}

fn main(rt: HostRuntime) -> io::Result<()> {
    let most = Season::MOST_JOBS as usize;
    let files = files_named(&rt, most);
    match take_files(&rt, files.min(most)) {
        Ok(season) => print_season(&rt, season)?,
        Err(missing) => return print_number(&rt, b'?', missing),
    }
    if most < files {
        print_number(&rt, b'X', Refusal::TooManyJobs.number() as usize)?;
    }
    Ok(())
}

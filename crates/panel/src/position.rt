// The panel at a position of the list, and the position of a panel.
ghost use Rattle.std.specs.Prelude.{Ok, Err, IfOk, cond, true, ◌≡◌, ◌^◌, ◌<◌, ◌≤◌, nat_abs};
ghost use Rattle.refusal.specs.Refusal.{numbered};
ghost use Rattle.panel.specs.Listed.{panel_within};
ghost use Rattle.panel.specs.Panels.{count_of, entry_at};
ghost use Rattle.panel.specs.Position.{panel_after, place_of_entry, position_of};
ghost use Rattle.panel.specs.Refusal.{panel_at_position, most_size, natural_within, of_panel, size_within};

use crate::{MOST_SIZE, Panel};
use refusal::Refusal;

// z, where it is from `low` to `high`; a negative number is not.
#[tactic(auto, unfolding(crate::specs::Refusal::natural_within, integer::specs::Within::within))]
fn natural_within(low: u64, high: u64, z: i64) -> Result<u64, Refusal>
    ensures is { result ≡ cond (natural_within low high z) (Ok (nat_abs z)) (Err (numbered 2)) }
    ensures within { IfOk result (λ n. (low ≤ n) × (n ≤ high)) }
{
    match u64::try_from(z) {
        Ok(n) if low <= n && n <= high => Ok(n),
        _ => Err(Refusal::OutOfRange),
    }
}

// b, where it is from 0 to 8.
pub(crate) fn size_of(b: i64) -> Result<u64, Refusal>
    ensures is { result ≡ cond (size_within b) (Ok (nat_abs b)) (Err (numbered 2)) }
    ensures within { IfOk result (λ n. n ≤ most_size) }
{
    natural_within(0, MOST_SIZE, b)
}

// (2b+1)^3.
pub(crate) fn count_of(b: u64) -> u64
    requires { b ≤ most_size }
    ensures { result ≡ count_of b }
{
    (2 * b + 1).pow(3)
}

fn entry_at(b: u64, i: u64) -> i64
    requires { (b < 2 ^ 63) × (i < 2 ^ 63) }
    ensures { result ≡ entry_at b i }
{
    i as i64 - b as i64
}

// The panel with i panels before it.
#[tactic(auto, unfolding(crate::specs::Position::panel_after))]
pub(crate) fn panel_after(b: u64, i: u64) -> Panel
    requires { (b ≤ most_size) × (i < count_of b) }
    ensures { result ≡ panel_after b i }
{
    let width = 2 * b + 1;
    Panel {
        a11: entry_at(b, i / width / width),
        a12: entry_at(b, i / width % width),
        a22: entry_at(b, i % width),
    }
}

// The panel at a position of the list, from 1; 2 for a b or a position outside its range.
#[tactic(auto, unfolding(crate::specs::Refusal::panel_at_position, crate::specs::Position::panel_at))]
pub fn panel_at(b: i64, position: i64) -> Result<Panel, Refusal>
    ensures { result ≡ panel_at_position b position }
{
    let size = size_of(b)?;
    let place = natural_within(1, count_of(size), position)?;
    Ok(panel_after(size, place - 1))
}

// Whether each entry is from −b to b. Tried: `all` over the three as an array leaves `returns` open.
#[tactic(auto, unfolding(crate::specs::Listed::panel_within))]
fn entries_within(b: u64, x: Panel) -> bool
    ensures { result ≡ panel_within b x }
{
    x.a11.unsigned_abs() <= b && x.a12.unsigned_abs() <= b && x.a22.unsigned_abs() <= b
}

// How many places after −b an entry stands.
fn place_of(b: u64, z: i64) -> u64
    requires { (b ≤ most_size) × (nat_abs z ≤ b) }
    ensures { (result ≡ place_of_entry b z) × (result ≤ 16) }
{
    (z + b as i64).unsigned_abs()
}

#[tactic(auto, unfolding(crate::specs::Position::position_of))]
fn position_in(b: u64, x: Panel) -> u64
    requires { (b ≤ most_size) × (panel_within b x ≡ true) }
    ensures { result ≡ position_of b x }
{
    let width = 2 * b + 1;
    let row = place_of(b, x.a11) * width + place_of(b, x.a12);
    row * width + place_of(b, x.a22) + 1
}

// The position of a panel, from 1; 2 for a b outside 0 to 8 or an entry beyond ±b.
#[tactic(auto, unfolding(crate::specs::Refusal::of_panel))]
pub fn position_of(b: i64, x: Panel) -> Result<u64, Refusal>
    ensures { result ≡ of_panel b x }
{
    let size = size_of(b)?;
    if !entries_within(size, x) {
        return Err(Refusal::OutOfRange);
    }
    Ok(position_in(size, x))
}

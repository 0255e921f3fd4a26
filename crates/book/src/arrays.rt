// A book's arrays: counts written after those that are there, and numbers taken out, after which the later ones move up.
ghost use Rattle.std.specs.Prelude.{◌≡◌, ◌+◌, ◌≤◌, length};
ghost use Rattle.std.proofs.lemmas.List.Edits.{sets};
ghost use Rattle.book.specs.inner.Arrays.{closed_up};

// The values, from the place `at` on.
#[tactic(auto, using(crate::proofs::Pasted::writing))]
pub(crate) fn put_counts(counts: &mut [u32; 2048], at: usize, values: &[u32])
    requires { (length counts.old ≡ 2048) × (at + length values.now ≤ 2048) }
    ensures { counts.new ≡ sets counts.old at values.now }
{
    counts[at..at + values.len()].copy_from_slice(values);
}

// `width` numbers from `from` on are taken out: those after them move up, and 0 follows.
pub(crate) fn close_up(values: &mut [u32], from: usize, width: usize)
    requires { from + width ≤ length values.old }
    ensures { values.new ≡ closed_up from width values.old }
{
    values.copy_within(from + width.., from);
    let end = values.len() - width;
    values[end..].fill(0);
}

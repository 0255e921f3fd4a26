// Flat arrays of 64 entries, 8 to a row, and the same entries as 8 rows of 8.
ghost use Rattle.std.specs.Prelude.{◌≡◌, ◌<◌};
ghost use Rattle.record.specs.Flat.{flat_of, rows_of, entries_of};
ghost use Rattle.turn.specs.Turn.{at};

// Not by `copy_from_slice`: it tests whether the two parts overlap, and with it `unpacked` was too long to be inlined and copied each row twice.
pub fn row(a: &[i64; 64], i: usize) -> [i64; 8]
    requires { i < 8 }
    ensures { result ≡ entries_of a.now i }
{
    let start = 8 * i;
    let mut row = [0i64; 8];
    for j in 0..8 {
        row[j] = a[start + j];
    }
    row
}

// Tried: by `array::from_fn`, whose closure wants a `requires` of its own in the source.
pub(crate) fn unpacked(a: &[i64; 64]) -> [[i64; 8]; 8]
    ensures { result ≡ rows_of a.now }
{
    let mut rows = [[0i64; 8]; 8];
    for i in 0..8 {
        rows[i] = row(a, i);
    }
    rows
}

// Tried: row by row by `copy_from_slice`, whose goals do not reduce.
pub(crate) fn packed(b: &[[i64; 8]; 8]) -> [i64; 64]
    ensures { result ≡ flat_of (at b.now) }
{
    let mut a = [0i64; 64];
    for i in 0..8 {
        for j in 0..8 {
            a[8 * i + j] = b[i][j];
        }
    }
    a
}

// The turn of the whole matrix and of the axes. Rows and columns count from 0; the first n are in use.
#![tactic(auto)]

pub mod pair;

ghost use Rattle.std.specs.Prelude.{◌≡◌, ◌<◌, ◌≤◌};
ghost use Rattle.turn.specs.inner.InPlace.{Passed, block_of, mirror_of, with_block};
ghost use Rattle.turn.specs.Shape.{Shaped};
ghost use Rattle.turn.specs.Size.{Small};
ghost use Rattle.turn.specs.inner.Size.{SymmetricRows, TurnFits};
ghost use Rattle.turn.specs.Turn.{at, square, turn_axes, turn_matrix};

use pair::Rotation;

// The turn of lent axes on the pair p < q: rows p and q, column by column.
pub fn turn_axes(v: &mut [[i64; 8]; 8], n: usize, r: Rotation, p: usize, q: usize)
    requires { (p < q) × (q < n) × (n ≤ 8) × TurnFits r × Small v.old × Shaped v.old }
    ensures { v.new ≡ turn_axes n r p q v.old }
{
    let back = r.inverse();
    for j in 0..n {
        let x = v[p][j];
        let y = v[q][j];
        let new_p = pair::turned(r, x, y);
        let new_q = pair::turned(back, y, x);
        v[p][j] = new_p;
        v[q][j] = new_q;
    }
}

// The block of rows p and q; its entry at p, q stands at q, p too.
#[tactic(auto, using(crate::proofs::ProvedBy::put_block))]
fn put_block(a: &mut [[i64; 8]; 8], p: usize, q: usize, pp: i64, pq: i64, qq: i64)
    requires { (p < q) × (q < 8) × Shaped a.old }
    ensures { a.new ≡ square (with_block p q (at a.old) pp pq qq) }
{
    a[p][p] = pp;
    a[p][q] = pq;
    a[q][p] = pq;
    a[q][q] = qq;
}

// The second pass over the block. Its entries at p, q and at q, p are one number, rounded once.
fn turn_block(a: &mut [[i64; 8]; 8], r: Rotation, p: usize, q: usize)
    requires { (p < q) × (q < 8) × TurnFits r × Passed r p q a.old × Shaped a.old }
    ensures { a.new ≡ square (block_of p q (at a.old) r) }
{
    let h_pp = a[p][p];
    let h_pq = a[p][q];
    let h_qp = a[q][p];
    let h_qq = a[q][q];
    let back = r.inverse();
    let pp = pair::turned(r, h_pp, h_pq);
    let pq = pair::turned(back, h_pq, h_pp);
    let qq = pair::turned(back, h_qq, h_qp);
    put_block(a, p, q, pp, pq, qq);
}

// Columns p and q from rows p and q, which agree where they cross.
fn mirror(a: &mut [[i64; 8]; 8], n: usize, p: usize, q: usize)
    requires { (p < q) × (q < n) × (n ≤ 8) × Shaped a.old × (at a.old p q ≡ at a.old q p) }
    ensures { a.new ≡ square (mirror_of p q (at a.old) n) }
{
    for i in 0..n {
        let x = a[p][i];
        let y = a[q][i];
        a[i][p] = x;
        a[i][q] = y;
    }
}

// The turn of a lent matrix on the pair p < q, in three steps. Its first pass over rows p and q is what turns axes.
fn turn_in_place(a: &mut [[i64; 8]; 8], n: usize, r: Rotation, p: usize, q: usize)
    requires { (p < q) × (q < n) × (n ≤ 8) × TurnFits r × Small a.old × SymmetricRows a.old × Shaped a.old }
    ensures { a.new ≡ turn_matrix n r p q a.old }
{
    turn_axes(a, n, r, p, q);
    turn_block(a, r, p, q);
    mirror(a, n, p, q);
}

// The turn of the whole matrix on the pair p < q.
pub fn turn_matrix(mut a: [[i64; 8]; 8], n: usize, r: Rotation, p: usize, q: usize) -> [[i64; 8]; 8]
    requires { (p < q) × (q < n) × (n ≤ 8) × TurnFits r × Small a × SymmetricRows a }
    ensures { result ≡ turn_matrix n r p q a }
{
    turn_in_place(&mut a, n, r, p, q);
    a
}

// The series of `integrated_adjoint`: its sum by 3 by 3 blocks where every number is finite, and in general. Private to the crate.
ghost use Rattle.std.specs.Prelude.{◌≡◌, ◌<◌};
ghost use Rattle.drifters_matrix.specs.Matrix.{matrix, scaled, add_matrix};
ghost use Rattle.drifters_lie.specs.Lie.{ad_se3};
ghost use Rattle.drifters_adjoint.specs.Adjoint.{series};
ghost use Rattle.drifters_adjoint.specs.Series.{whole, identity_blocks, ad_blocks, product_at, add_terms, blocks_series};

use drifters_lie::lie::Se3Tangent;
use drifters_matrix::math::matrix::{Mat3, Mat6, Matrix};

// The identity, and the terms 1 to 15 of the series of m added to it. `Blocks::series` is the same loop: a trait over both types would take four
// methods and what each gives, twice, which is longer than the second loop.
fn matrix_series(m: Mat6) -> Mat6
    ensures { result.data ≡ series m.data 15 }
{
    let mut term = Mat6::identity();
    let mut psi = term;
    for k in 1u32..16 {
        let next: Mat6 = term.matmul(&m);
        term = next.scaled(1.0 / (k + 1) as f64);
        psi = psi.add(term);
    }
    psi
}

// A matrix [[P, 0], [Q, P]] of 3 by 3 blocks, held by its first three columns, P and then Q. The matrix of a bracket is of this form, and so are
// the terms of its series: half the numbers, and no products with the zero block.
#[derive(Clone, Copy)]
struct Blocks {
    columns: Matrix<6, 3, 18>,
}

// Three terms of an entry of a product added to acc, in their order: of a row of t from the place `row` on, and of a column of m from `column` on.
fn add_terms(acc: f64, t: &[f64; 18], row: usize, m: &[f64; 18], column: usize) -> f64
    requires { (row < 16) × (column < 12) }
    ensures { result ≡ add_terms acc t.now row m.now column }
{
    acc + t[row] * m[column] + t[row + 1] * m[column + 3] + t[row + 2] * m[column + 6]
}

impl Blocks {
    fn identity() -> Blocks
        ensures { result.columns.data ≡ identity_blocks }
    {
        let mut columns = Matrix::zeros();
        columns.set_block(0, 0, &Mat3::identity());
        Blocks { columns }
    }

    // The matrix of the bracket with w.
    fn ad(w: Se3Tangent) -> Blocks
        ensures { result.columns.data ≡ ad_blocks w }
    {
        let mut columns = Matrix::zeros();
        columns.set_block(0, 0, &w.omega.skew());
        columns.set_block(3, 0, &w.nu.skew());
        Blocks { columns }
    }

    // All 36 entries.
    fn whole(self) -> Mat6
        ensures { result.data ≡ whole self.columns.data }
    {
        let upper: Mat3 = self.columns.block(0, 0);
        let mut m = Mat6::zeros();
        m.set_block(0, 0, &self.columns);
        m.set_block(3, 3, &upper);
        m
    }

    // The product with m. With P and Q of the matrix and R and S of m it has P R, and Q R + P S: first the terms of Q, then those of P. Carried
    // along are the start of the row that is made, s, and that of the row of P beside a row of Q, `upper`, so that the loops go by index.
    fn matmul(self, m: Blocks) -> Blocks
        ensures { result.columns.data ≡ matrix 6 3 (product_at self.columns.data m.columns.data) }
    {
        let t = &self.columns.data;
        let r = &m.columns.data;
        let mut data = [0.0; 18];
        let mut s = 0;
        for _ in 0usize..3 {
            for j in 0..3 {
                data[s + j] = add_terms(0.0, t, s, r, j);
            }
            s += 3;
        }
        let mut upper = 0;
        for _ in 3usize..6 {
            for j in 0..3 {
                let below = j + 9;
                let sum = add_terms(0.0, t, s, r, j);
                data[s + j] = add_terms(sum, t, upper, r, below);
            }
            upper += 3;
            s += 3;
        }
        let columns = Matrix { data };
        Blocks { columns }
    }

    fn scaled(self, s: f64) -> Blocks
        ensures { result.columns.data ≡ scaled 18 self.columns.data s }
    {
        let columns = self.columns.scaled(s);
        Blocks { columns }
    }

    // A named function and no `Add`: document 01 wants the operators so.
    fn add(self, t: Blocks) -> Blocks
        ensures { result.columns.data ≡ add_matrix 18 self.columns.data t.columns.data }
    {
        let columns = self.columns.add(t.columns);
        Blocks { columns }
    }

    // The series of m.
    fn series(m: Blocks) -> Blocks
        ensures { result.columns.data ≡ blocks_series m.columns.data 15 }
    {
        let mut term = Blocks::identity();
        let mut psi = term;
        for k in 1u32..16 {
            // Before the product, so that the division does not wait for its sums.
            let factor = 1.0 / (k + 1) as f64;
            term = term.matmul(m).scaled(factor);
            psi = psi.add(term);
        }
        psi
    }
}

// The series of the matrix of the bracket with w. What is not finite goes the general way: zero times infinity is not zero.
pub(crate) fn sum_series(w: Se3Tangent) -> Mat6
    ensures { result.data ≡ series (ad_se3 w) 15 }
{
    let m = Blocks::ad(w);
    let psi = Blocks::series(m);
    if m.columns.is_finite() & psi.columns.is_finite() {
        return psi.whole();
    }
    matrix_series(w.ad())
}

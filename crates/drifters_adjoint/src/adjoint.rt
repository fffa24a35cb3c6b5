// Port of `integrated_adjoint` of lie.rs: halved, summed by its series, doubled back.
#![tactic(auto, unfolding(crate::specs::Adjoint::integrated_adjoint))]

ghost use Rattle.std.specs.Prelude.{◌≡◌};
ghost use Rattle.drifters_adjoint.specs.Adjoint.{most_halvings, halvings, halved, doubled, integrated_adjoint};

use crate::series::sum_series;
use drifters_lie::lie::{Se3, Se3Tangent};
use drifters_matrix::math::matrix::Mat6;
use drifters_real::math::real::max;

// The most halvings made.
const MOST_HALVINGS: usize = 64;

// An element of se(3) after halvings, and their number.
#[derive(Clone, Copy)]
struct Halved {
    w: Se3Tangent,
    halvings: usize,
}

// Halved while the larger `amax` is above 0.0625, at most MOST_HALVINGS times; not where it is NaN.
fn halve(v: Se3Tangent) -> Halved
    ensures { (result.halvings ≡ halvings most_halvings v) × (result.w ≡ halved (halvings most_halvings v) v) }
{
    let mut w = v;
    for n in 0..MOST_HALVINGS {
        if !(max(w.omega.amax(), w.nu.amax()) > 0.0625) {
            return Halved { w, halvings: n };
        }
        w = w.scaled(0.5);
    }
    Halved {
        w,
        halvings: MOST_HALVINGS,
    }
}

// psi of the halved element, doubled back over its halvings.
fn double(h: Halved, psi: Mat6) -> Mat6
    ensures { result.data ≡ doubled h.halvings h.w psi.data }
{
    let mut v = h.w;
    let mut out = psi;
    for _ in 0..h.halvings {
        let step: Mat6 = Mat6::identity().add(Se3::exp(v).adjoint()).matmul(&out);
        out = step.scaled(0.5);
        v = v.scaled(2.0);
    }
    out
}

// The adjoint of exp (s v), integrated over s from 0 to 1.
pub fn integrated_adjoint(v: Se3Tangent) -> Mat6
    ensures { result.data ≡ integrated_adjoint v }
{
    let h = halve(v);
    double(h, sum_series(h.w))
}

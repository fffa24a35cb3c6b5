// The leaves, exported for the comparison with the original only: each function takes every number, and writes only what it is lent.
// drifters_eqf_c exports what a product calls. The C interface lends arrays, and passes no generic struct: where a matrix has no function on lent arrays,
// a leaf copies them into one. Its numbers go out through a variable: where the field is stored straight, the check has no proof of it yet.
#![tactic(auto)]

ghost use Rattle.std.specs.Prelude.{◌≡◌, cond, Some, None};
ghost use Rattle.drifters_core.specs.Vec3.{from_array, to_array, normalized, amax_vec3};
ghost use Rattle.drifters_matrix.specs.Matrix.{matmul, mul_transpose, from_diagonal, symmetrize, amax};
ghost use Rattle.drifters_cholesky.specs.Cholesky.{definite, entries_of, cholesky, solve};
ghost use Rattle.drifters_quat.specs.Quat.{from_rotation_vector, to_dcm};
ghost use Rattle.drifters_lie.specs.Lie.{from_array_se3, left_jacobian};
ghost use Rattle.drifters_adjoint.specs.Adjoint.{integrated_adjoint};
ghost use Rattle.drifters_gcu.specs.Gcu.{beta};

use drifters_adjoint::adjoint::integrated_adjoint;
use drifters_cholesky::math::cholesky::Cholesky;
use drifters_core::math::vec3::Vec3;
use drifters_gcu::gcu::beta;
use drifters_lie::lie::{Se3Tangent, left_jacobian};
use drifters_matrix::math::matrix::{
    Mat3, Mat3x21, Mat6, Mat21, Mat21x3, Mat21x18, Vector3, Vector6, Vector21, matmul_arrays,
    mul_transpose_arrays, symmetrize_array,
};
use drifters_quat::math::quat::Quat;

// Whether `v` has a vector over its norm, which is then in `out`; else `out` is as it was. C has no Option.
#[unsafe(no_mangle)]
pub extern "C" fn drifters_normalized(v: &[f64; 3], out: &mut [f64; 3]) -> bool
    ensures { (cond result (Some (from_array out.new)) None ≡ normalized (from_array v.now)) × (out.new ≡ cond result out.new out.old) }
{
    match Vec3::from_array(*v).normalized() {
        Some(unit) => {
            *out = unit.to_array();
            true
        }
        None => false,
    }
}

#[unsafe(no_mangle)]
pub extern "C" fn drifters_amax(v: &[f64; 3]) -> f64
    ensures { result ≡ amax_vec3 (from_array v.now) }
{
    Vec3::from_array(*v).amax()
}

// The quaternion of a rotation vector, as w, x, y, z, and its direction cosine matrix.
#[unsafe(no_mangle)]
pub extern "C" fn drifters_rotation(phi: &[f64; 3], q: &mut [f64; 4], dcm: &mut [f64; 9])
    ensures { (q.new ≡ Rattle.drifters_quat.specs.Quat.to_array (from_rotation_vector (from_array phi.now))) × (dcm.new ≡ (to_dcm (from_rotation_vector (from_array phi.now))).data) }
{
    let r = Quat::from_rotation_vector(Vec3::from_array(*phi));
    *q = r.to_array();
    let m = r.to_dcm();
    let data = m.data;
    *dcm = data;
}

// The products of the shapes in use: an r by c matrix times a c by d one, or times the transpose of a d by c one, at r, c, d. C has no generics:
// each shape has a name. Those with a column go by records: from copies the compiler makes code without a branch for a zero. With zeros in places that
// change, the product at 21, 3, 1 takes a third of the time so.
#[unsafe(no_mangle)]
pub extern "C" fn drifters_matmul_3_3_3(a: &[f64; 9], b: &[f64; 9], out: &mut [f64; 9])
    ensures { out.new ≡ matmul 3 3 3 a.now b.now }
{
    matmul_arrays::<3, 3, 3, 9, 9, 9>(a, b, out);
}

#[unsafe(no_mangle)]
pub extern "C" fn drifters_matmul_6_6_6(a: &[f64; 36], b: &[f64; 36], out: &mut [f64; 36])
    ensures { out.new ≡ matmul 6 6 6 a.now b.now }
{
    matmul_arrays::<6, 6, 6, 36, 36, 36>(a, b, out);
}

#[unsafe(no_mangle)]
pub extern "C" fn drifters_matmul_6_6_1(a: &[f64; 36], b: &[f64; 6], out: &mut [f64; 6])
    ensures { out.new ≡ matmul 6 6 1 a.now b.now }
{
    let product: Vector6 = Mat6 { data: *a }.matmul(&Vector6 { data: *b });
    let data = product.data;
    *out = data;
}

#[unsafe(no_mangle)]
pub extern "C" fn drifters_matmul_21_21_21(a: &[f64; 441], b: &[f64; 441], out: &mut [f64; 441])
    ensures { out.new ≡ matmul 21 21 21 a.now b.now }
{
    matmul_arrays::<21, 21, 21, 441, 441, 441>(a, b, out);
}

#[unsafe(no_mangle)]
pub extern "C" fn drifters_matmul_3_21_21(a: &[f64; 63], b: &[f64; 441], out: &mut [f64; 63])
    ensures { out.new ≡ matmul 3 21 21 a.now b.now }
{
    matmul_arrays::<3, 21, 21, 63, 441, 63>(a, b, out);
}

#[unsafe(no_mangle)]
pub extern "C" fn drifters_matmul_21_3_1(a: &[f64; 63], b: &[f64; 3], out: &mut [f64; 21])
    ensures { out.new ≡ matmul 21 3 1 a.now b.now }
{
    let product: Vector21 = Mat21x3 { data: *a }.matmul(&Vector3 { data: *b });
    let data = product.data;
    *out = data;
}

#[unsafe(no_mangle)]
pub extern "C" fn drifters_matmul_21_3_3(a: &[f64; 63], b: &[f64; 9], out: &mut [f64; 63])
    ensures { out.new ≡ matmul 21 3 3 a.now b.now }
{
    matmul_arrays::<21, 3, 3, 63, 9, 63>(a, b, out);
}

#[unsafe(no_mangle)]
pub extern "C" fn drifters_matmul_21_3_21(a: &[f64; 63], b: &[f64; 63], out: &mut [f64; 441])
    ensures { out.new ≡ matmul 21 3 21 a.now b.now }
{
    matmul_arrays::<21, 3, 21, 63, 63, 441>(a, b, out);
}

#[unsafe(no_mangle)]
pub extern "C" fn drifters_matmul_21_18_18(a: &[f64; 378], b: &[f64; 324], out: &mut [f64; 378])
    ensures { out.new ≡ matmul 21 18 18 a.now b.now }
{
    matmul_arrays::<21, 18, 18, 378, 324, 378>(a, b, out);
}

#[unsafe(no_mangle)]
pub extern "C" fn drifters_mul_transpose_21_21_21(
    a: &[f64; 441],
    b: &[f64; 441],
    out: &mut [f64; 441],
)
    ensures { out.new ≡ mul_transpose 21 21 21 a.now b.now }
{
    mul_transpose_arrays::<21, 21, 21, 441, 441, 441>(a, b, out);
}

#[unsafe(no_mangle)]
pub extern "C" fn drifters_mul_transpose_3_21_3(a: &[f64; 63], b: &[f64; 63], out: &mut [f64; 9])
    ensures { out.new ≡ mul_transpose 3 21 3 a.now b.now }
{
    mul_transpose_arrays::<3, 21, 3, 63, 63, 9>(a, b, out);
}

#[unsafe(no_mangle)]
pub extern "C" fn drifters_mul_transpose_21_3_21(a: &[f64; 63], b: &[f64; 63], out: &mut [f64; 441])
    ensures { out.new ≡ mul_transpose 21 3 21 a.now b.now }
{
    mul_transpose_arrays::<21, 3, 21, 63, 63, 441>(a, b, out);
}

// The 21 by 18 matrix `a` times the diagonal matrix of `d`.
#[unsafe(no_mangle)]
pub extern "C" fn drifters_mul_diagonal_21_18(a: &[f64; 378], d: &[f64; 18], out: &mut [f64; 378])
    ensures { out.new ≡ matmul 21 18 18 a.now (from_diagonal 18 d.now) }
{
    let product = Mat21x18 { data: *a }.mul_diagonal::<324>(*d);
    let data = product.data;
    *out = data;
}

#[unsafe(no_mangle)]
pub extern "C" fn drifters_mul_transpose_21_18_21(
    a: &[f64; 378],
    b: &[f64; 378],
    out: &mut [f64; 441],
)
    ensures { out.new ≡ mul_transpose 21 18 21 a.now b.now }
{
    mul_transpose_arrays::<21, 18, 21, 378, 378, 441>(a, b, out);
}

#[unsafe(no_mangle)]
pub extern "C" fn drifters_mul_transpose_3_1_3(a: &[f64; 3], b: &[f64; 3], out: &mut [f64; 9])
    ensures { out.new ≡ mul_transpose 3 1 3 a.now b.now }
{
    let product: Mat3 = Vector3 { data: *a }.mul_transpose(&Vector3 { data: *b });
    let data = product.data;
    *out = data;
}

#[unsafe(no_mangle)]
pub extern "C" fn drifters_symmetrize21(m: &mut [f64; 441])
    ensures { m.new ≡ symmetrize 21 m.old }
{
    symmetrize_array::<21, 441>(m);
}

#[unsafe(no_mangle)]
pub extern "C" fn drifters_amax21(m: &[f64; 441]) -> f64
    ensures { result ≡ amax 441 m.now }
{
    Mat21 { data: *m }.amax()
}

// Whether `a` is positive definite; its lower factor, or zeros, into `lower`. C has no Option.
#[unsafe(no_mangle)]
pub extern "C" fn drifters_cholesky3(a: &[f64; 9], lower: &mut [f64; 9]) -> bool
    ensures { (result ≡ definite (cholesky 3 a.now)) × (lower.new ≡ entries_of 3 (cholesky 3 a.now)) }
{
    match Cholesky::new(&Mat3 { data: *a }) {
        Some(factor) => {
            let data = factor.lower.data;
            *lower = data;
            true
        }
        None => {
            *lower = [0.0; 9];
            false
        }
    }
}

// The solution of L Lᵀ X = B, three rows of 21.
#[unsafe(no_mangle)]
pub extern "C" fn drifters_solve3(lower: &[f64; 9], b: &[f64; 63], out: &mut [f64; 63])
    ensures { out.new ≡ solve 3 21 lower.now b.now }
{
    let factor = Cholesky {
        lower: Mat3 { data: *lower },
    };
    let x: Mat3x21 = factor.solve(&Mat3x21 { data: *b });
    let data = x.data;
    *out = data;
}

// The adjoint of exp (s v), integrated over s from 0 to 1; v is omega, then nu.
#[unsafe(no_mangle)]
pub extern "C" fn drifters_integrated_adjoint(v: &[f64; 6], out: &mut [f64; 36])
    ensures { out.new ≡ integrated_adjoint (from_array_se3 v.now) }
{
    let m = integrated_adjoint(Se3Tangent::from_array(*v));
    let data = m.data;
    *out = data;
}

#[unsafe(no_mangle)]
pub extern "C" fn drifters_left_jacobian(omega: &[f64; 3], out: &mut [f64; 9])
    ensures { out.new ≡ (left_jacobian (from_array omega.now)).data }
{
    let m = left_jacobian(Vec3::from_array(*omega));
    let data = m.data;
    *out = data;
}

// The factor of inflation at the normalised innovation squared r.
#[unsafe(no_mangle)]
pub extern "C" fn drifters_beta(r: f64) -> f64
    ensures { result ≡ beta r }
{
    beta(r)
}

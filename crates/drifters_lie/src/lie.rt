// Port of lie.rs: the Lie groups SE₂(3) and SE(3), their algebras, and the left Jacobian of SO(3), by value. The operators are named
// functions, and `from_array` and `to_array` have the original's names.
#![tactic(auto, unfolding(crate::specs::Lie::scaled_se23, crate::specs::Lie::add_se23, crate::specs::Lie::bracket_se3, crate::specs::Lie::ad_se3, crate::specs::Lie::add_se3, crate::specs::Lie::sub_se3, crate::specs::Lie::neg_se3, crate::specs::Lie::compose_se23, crate::specs::Lie::inverse_se23, crate::specs::Lie::adjoint_apply_se23, crate::specs::Lie::exp_se23, crate::specs::Lie::inverse_se3, crate::specs::Lie::adjoint_se3, crate::specs::Lie::adjoint_apply_se3, crate::specs::Lie::exp_se3, crate::specs::Lie::jacobian_a, crate::specs::Lie::jacobian_b, crate::specs::Lie::left_jacobian))]

ghost use Rattle.std.specs.Prelude.{◌≡◌};
ghost use Rattle.drifters_lie.specs.Lie.{se23_tangent, se3_tangent, to_array_se23, scaled_se23, pi, to_array_se3, from_array_se3, scaled_se3, bracket_se3, ad_se3, add_se3, sub_se3, neg_se3, add_se23, jacobian_a, jacobian_b, left_jacobian, identity_se23, compose_se23, inverse_se23, adjoint_apply_se23, chi, exp_with, exp_se23, inverse_se3, adjoint_se3, adjoint_apply_se3, exp_se3};

use drifters_core::math::vec3::{Vec3, mul_vec3};
use drifters_matrix::math::matrix::{Mat3, Mat6};
use drifters_quat::math::quat::Quat;
use drifters_real::math::real::{sin_cos, sqrt};

// A 9-vector of se₂(3), ordered (omega, nu, rho).
#[derive(Clone, Copy)]
pub struct Se23Tangent {
    pub omega: Vec3,
    pub nu: Vec3,
    pub rho: Vec3,
}

impl Se23Tangent {
    pub fn new(omega: Vec3, nu: Vec3, rho: Vec3) -> Se23Tangent
        ensures { result ≡ se23_tangent omega nu rho }
    {
        Se23Tangent { omega, nu, rho }
    }

    pub fn to_array(self) -> [f64; 9]
        ensures { result ≡ to_array_se23 self }
    {
        let o = self.omega;
        let n = self.nu;
        let r = self.rho;
        [o.x, o.y, o.z, n.x, n.y, n.z, r.x, r.y, r.z]
    }

    pub fn scaled(self, s: f64) -> Se23Tangent
        ensures { result ≡ scaled_se23 self s }
    {
        Se23Tangent::new(self.omega.mul(s), self.nu.mul(s), self.rho.mul(s))
    }

    // The part of se(3).
    pub fn pi(self) -> Se3Tangent
        ensures { result ≡ pi self }
    {
        Se3Tangent::new(self.omega, self.nu)
    }

    pub fn add(self, rhs: Se23Tangent) -> Se23Tangent
        ensures { result ≡ add_se23 self rhs }
    {
        Se23Tangent::new(
            self.omega.add(rhs.omega),
            self.nu.add(rhs.nu),
            self.rho.add(rhs.rho),
        )
    }
}

// A 6-vector of se(3), ordered (omega, nu). As with the groups (below), its methods are those of se₂(3) with one part less.
#[derive(Clone, Copy)]
pub struct Se3Tangent {
    pub omega: Vec3,
    pub nu: Vec3,
}

impl Se3Tangent {
    // The zero tangent vector.
    pub const ZERO: Se3Tangent = Se3Tangent {
        omega: Vec3::ZERO,
        nu: Vec3::ZERO,
    };

    pub fn new(omega: Vec3, nu: Vec3) -> Se3Tangent
        ensures { result ≡ se3_tangent omega nu }
    {
        Se3Tangent { omega, nu }
    }

    pub fn to_array(self) -> [f64; 6]
        ensures { result ≡ to_array_se3 self }
    {
        let o = self.omega;
        let n = self.nu;
        [o.x, o.y, o.z, n.x, n.y, n.z]
    }

    pub fn from_array(v: [f64; 6]) -> Se3Tangent
        ensures { result ≡ from_array_se3 v }
    {
        Se3Tangent::new(Vec3::new(v[0], v[1], v[2]), Vec3::new(v[3], v[4], v[5]))
    }

    pub fn scaled(self, s: f64) -> Se3Tangent
        ensures { result ≡ scaled_se3 self s }
    {
        Se3Tangent::new(self.omega.mul(s), self.nu.mul(s))
    }

    // The Lie bracket [self, other].
    pub fn bracket(self, other: Se3Tangent) -> Se3Tangent
        ensures { result ≡ bracket_se3 self other }
    {
        Se3Tangent {
            omega: self.omega.cross(other.omega),
            nu: self.nu.cross(other.omega).add(self.omega.cross(other.nu)),
        }
    }

    // The matrix of the bracket.
    pub fn ad(self) -> Mat6
        ensures { result.data ≡ ad_se3 self }
    {
        let mut m = Mat6::zeros();
        m.set_block(0, 0, &self.omega.skew());
        m.set_block(3, 0, &self.nu.skew());
        m.set_block(3, 3, &self.omega.skew());
        m
    }

    pub fn add(self, rhs: Se3Tangent) -> Se3Tangent
        ensures { result ≡ add_se3 self rhs }
    {
        Se3Tangent::new(self.omega.add(rhs.omega), self.nu.add(rhs.nu))
    }

    pub fn sub(self, rhs: Se3Tangent) -> Se3Tangent
        ensures { result ≡ sub_se3 self rhs }
    {
        Se3Tangent::new(self.omega.sub(rhs.omega), self.nu.sub(rhs.nu))
    }

    pub fn neg(self) -> Se3Tangent
        ensures { result ≡ neg_se3 self }
    {
        Se3Tangent::new(self.omega.neg(), self.nu.neg())
    }
}

// An element of SE₂(3): an extended pose.
#[derive(Clone, Copy)]
pub struct Se23 {
    pub rotation: Mat3,
    pub velocity: Vec3,
    pub position: Vec3,
}

impl Se23 {
    // The identity element.
    pub fn identity() -> Se23
        ensures { result ≡ identity_se23 }
    {
        Se23 {
            rotation: Mat3::identity(),
            velocity: Vec3::ZERO,
            position: Vec3::ZERO,
        }
    }

    // The group product.
    pub fn compose(self, other: Se23) -> Se23
        ensures { result ≡ compose_se23 self other }
    {
        let a = self.rotation;
        Se23 {
            rotation: a.matmul(&other.rotation),
            velocity: mul_vec3(a, other.velocity).add(self.velocity),
            position: mul_vec3(a, other.position).add(self.position),
        }
    }

    // The group inverse.
    pub fn inverse(self) -> Se23
        ensures { result ≡ inverse_se23 self }
    {
        let rotation = self.rotation.transpose();
        let velocity = mul_vec3(rotation, self.velocity).neg();
        let position = mul_vec3(rotation, self.position).neg();
        Se23 {
            rotation,
            velocity,
            position,
        }
    }

    // The adjoint, applied without its matrix.
    pub fn adjoint_apply(self, u: Se23Tangent) -> Se23Tangent
        ensures { result ≡ adjoint_apply_se23 self u }
    {
        let a = self.rotation;
        let omega = mul_vec3(a, u.omega);
        let nu = self.velocity.cross(omega).add(mul_vec3(a, u.nu));
        let rho = self.position.cross(omega).add(mul_vec3(a, u.rho));
        Se23Tangent { omega, nu, rho }
    }

    // The rotation with the velocity column.
    pub fn chi(self) -> Se3
        ensures { result ≡ chi self }
    {
        Se3 {
            rotation: self.rotation,
            translation: self.velocity,
        }
    }

    // The exponential.
    pub fn exp(u: Se23Tangent) -> Se23
        ensures { result ≡ exp_se23 u }
    {
        Se23::exp_with(u, left_jacobian(u.omega))
    }

    // The exponential, where `jacobian` is the left Jacobian of its rotation: for a caller that has made it.
    pub fn exp_with(u: Se23Tangent, jacobian: Mat3) -> Se23
        ensures { result ≡ exp_with u jacobian }
    {
        Se23 {
            rotation: Quat::from_rotation_vector(u.omega).to_dcm(),
            velocity: mul_vec3(jacobian, u.nu),
            position: mul_vec3(jacobian, u.rho),
        }
    }
}

// An element of SE(3). Its methods are those of SE₂(3) with one column less, and the tangents' are alike too: all four types are the original's,
// with a name for each part, and one of any number of columns would go over them in loops.
#[derive(Clone, Copy)]
pub struct Se3 {
    pub rotation: Mat3,
    pub translation: Vec3,
}

impl Se3 {
    // The group inverse.
    pub fn inverse(self) -> Se3
        ensures { result ≡ inverse_se3 self }
    {
        let rotation = self.rotation.transpose();
        let translation = mul_vec3(rotation, self.translation).neg();
        Se3 {
            rotation,
            translation,
        }
    }

    // The matrix of the adjoint.
    pub fn adjoint(self) -> Mat6
        ensures { result.data ≡ adjoint_se3 self }
    {
        let rotation = self.rotation;
        let lower: Mat3 = self.translation.skew().matmul(&rotation);
        let mut m = Mat6::zeros();
        m.set_block(0, 0, &rotation);
        m.set_block(3, 0, &lower);
        m.set_block(3, 3, &rotation);
        m
    }

    // The adjoint, applied without its matrix.
    pub fn adjoint_apply(self, u: Se3Tangent) -> Se3Tangent
        ensures { result ≡ adjoint_apply_se3 self u }
    {
        let a = self.rotation;
        let omega = mul_vec3(a, u.omega);
        let nu = self.translation.cross(omega).add(mul_vec3(a, u.nu));
        Se3Tangent { omega, nu }
    }

    // The exponential.
    pub fn exp(u: Se3Tangent) -> Se3
        ensures { result ≡ exp_se3 u }
    {
        Se3 {
            rotation: Quat::from_rotation_vector(u.omega).to_dcm(),
            translation: mul_vec3(left_jacobian(u.omega), u.nu),
        }
    }
}

// The squared angle below which the series of the left Jacobian are used.
const SMALL_ANGLE_SQ: f64 = 1.0e-4;

// The factors of the skew matrix and of its square in the left Jacobian: the original's pair, with names.
#[derive(Clone, Copy)]
struct Factors {
    a: f64,
    b: f64,
}

// The factors, from the squared angle.
fn jacobian_factors(theta2: f64) -> Factors
    ensures { (result.a ≡ jacobian_a theta2) × (result.b ≡ jacobian_b theta2) }
{
    if theta2 < SMALL_ANGLE_SQ {
        let t4 = theta2 * theta2;
        Factors {
            a: 0.5 - theta2 / 24.0 + t4 / 720.0,
            b: 1.0 / 6.0 - theta2 / 120.0 + t4 / 5040.0,
        }
    } else {
        let theta = sqrt(theta2);
        let s = sin_cos(theta);
        Factors {
            a: (1.0 - s.cos) / theta2,
            b: (theta - s.sin) / (theta2 * theta),
        }
    }
}

// The left Jacobian of SO(3).
pub fn left_jacobian(omega: Vec3) -> Mat3
    ensures { result ≡ left_jacobian omega }
{
    let f = jacobian_factors(omega.norm_squared());
    let s = omega.skew();
    let s2: Mat3 = s.matmul(&s);
    Mat3::identity().add(s.scaled(f.a)).add(s2.scaled(f.b))
}

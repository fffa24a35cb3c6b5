// Port of math/vec3.rs: three-element column vectors, by value. The operators are named functions, as document 01 wants them (docs/DECISIONS.md), and
// `from_array` and `to_array` have the original's names.
// The definitions that a proof opens.
#![tactic(auto, unfolding(crate::specs::Vec3::dot, crate::specs::Vec3::cross, crate::specs::Vec3::norm, crate::specs::Vec3::norm_squared, crate::specs::Vec3::normalized, crate::specs::Vec3::component_mul, crate::specs::Vec3::component_div, crate::specs::Vec3::squared, crate::specs::Vec3::skew, crate::specs::Vec3::to_diag, crate::specs::Vec3::finite_vec3, crate::specs::Vec3::amax_vec3, crate::specs::Vec3::add_vec3, crate::specs::Vec3::sub_vec3, crate::specs::Vec3::neg_vec3, crate::specs::Vec3::mul_vec3, crate::specs::Vec3::div_vec3, crate::specs::Vec3::mul_mat3_vec3))]

ghost use Rattle.std.specs.Prelude.{◌≡◌};
ghost use Rattle.drifters_core.specs.Vec3.{vec3, splat, from_array, to_array, dot, cross, norm, norm_squared, normalized, component_mul, component_div, squared, skew, to_diag, finite_vec3, amax_vec3, add_vec3, sub_vec3, neg_vec3, mul_vec3, div_vec3, mul_mat3_vec3};

use drifters_matrix::math::matrix::{Mat3, Vector3};
use drifters_matrix::math::runs::larger;
use drifters_real::math::real::{abs, is_finite, sqrt};

#[derive(Clone, Copy)]
pub struct Vec3 {
    pub x: f64,
    pub y: f64,
    pub z: f64,
}

impl Vec3 {
    // The zero vector.
    pub const ZERO: Vec3 = Vec3 {
        x: 0.0,
        y: 0.0,
        z: 0.0,
    };

    pub fn new(x: f64, y: f64, z: f64) -> Vec3
        ensures { result ≡ vec3 x y z }
    {
        Vec3 { x, y, z }
    }

    pub fn splat(v: f64) -> Vec3
        ensures { result ≡ splat v }
    {
        Vec3 { x: v, y: v, z: v }
    }

    pub fn from_array(a: [f64; 3]) -> Vec3
        ensures { result ≡ from_array a }
    {
        Vec3 {
            x: a[0],
            y: a[1],
            z: a[2],
        }
    }

    pub fn to_array(self) -> [f64; 3]
        ensures { result ≡ to_array self }
    {
        [self.x, self.y, self.z]
    }

    pub fn dot(self, rhs: Vec3) -> f64
        ensures { result ≡ dot self rhs }
    {
        self.x * rhs.x + self.y * rhs.y + self.z * rhs.z
    }

    pub fn cross(self, rhs: Vec3) -> Vec3
        ensures { result ≡ cross self rhs }
    {
        Vec3 {
            x: self.y * rhs.z - self.z * rhs.y,
            y: self.z * rhs.x - self.x * rhs.z,
            z: self.x * rhs.y - self.y * rhs.x,
        }
    }

    pub fn norm(self) -> f64
        ensures { result ≡ norm self }
    {
        sqrt(self.norm_squared())
    }

    pub fn norm_squared(self) -> f64
        ensures { result ≡ norm_squared self }
    {
        self.dot(self)
    }

    // None where the norm is not above 0, which the original answers by the zero vector: that is no direction.
    pub fn normalized(self) -> Option<Vec3>
        ensures { result ≡ normalized self }
    {
        let n = self.norm();
        if n > 0.0 { Some(self.div(n)) } else { None }
    }

    pub fn component_mul(self, rhs: Vec3) -> Vec3
        ensures { result ≡ component_mul self rhs }
    {
        Vec3 {
            x: self.x * rhs.x,
            y: self.y * rhs.y,
            z: self.z * rhs.z,
        }
    }

    pub fn component_div(self, rhs: Vec3) -> Vec3
        ensures { result ≡ component_div self rhs }
    {
        Vec3 {
            x: self.x / rhs.x,
            y: self.y / rhs.y,
            z: self.z / rhs.z,
        }
    }

    pub fn squared(self) -> Vec3
        ensures { result ≡ squared self }
    {
        self.component_mul(self)
    }

    // The skew-symmetric matrix [self×].
    pub fn skew(self) -> Mat3
        ensures { result ≡ skew self }
    {
        Mat3 {
            data: [
                0.0, -self.z, self.y, self.z, 0.0, -self.x, -self.y, self.x, 0.0,
            ],
        }
    }

    pub fn to_diag(self) -> Mat3
        ensures { result ≡ to_diag self }
    {
        Mat3 {
            data: [self.x, 0.0, 0.0, 0.0, self.y, 0.0, 0.0, 0.0, self.z],
        }
    }

    pub fn is_finite(self) -> bool
        ensures { result ≡ finite_vec3 self }
    {
        is_finite(self.x) & is_finite(self.y) & is_finite(self.z)
    }

    // The largest size of a component. Not a number is kept only where it stands in x.
    pub fn amax(self) -> f64
        ensures { result ≡ amax_vec3 self }
    {
        larger(larger(abs(self.x), self.y), self.z)
    }

    pub fn add(self, rhs: Vec3) -> Vec3
        ensures { result ≡ add_vec3 self rhs }
    {
        Vec3 {
            x: self.x + rhs.x,
            y: self.y + rhs.y,
            z: self.z + rhs.z,
        }
    }

    pub fn sub(self, rhs: Vec3) -> Vec3
        ensures { result ≡ sub_vec3 self rhs }
    {
        Vec3 {
            x: self.x - rhs.x,
            y: self.y - rhs.y,
            z: self.z - rhs.z,
        }
    }

    pub fn neg(self) -> Vec3
        ensures { result ≡ neg_vec3 self }
    {
        Vec3 {
            x: -self.x,
            y: -self.y,
            z: -self.z,
        }
    }

    pub fn mul(self, s: f64) -> Vec3
        ensures { result ≡ mul_vec3 self s }
    {
        Vec3 {
            x: self.x * s,
            y: self.y * s,
            z: self.z * s,
        }
    }

    pub fn div(self, s: f64) -> Vec3
        ensures { result ≡ div_vec3 self s }
    {
        Vec3 {
            x: self.x / s,
            y: self.y / s,
            z: self.z / s,
        }
    }
}

// What follows stands in the original's matrix.rs, the product as `Mul<Vec3> for Mat3`. It stands here so that matrices do not know vectors.

// The matrix times a vector.
pub fn mul_vec3(m: Mat3, v: Vec3) -> Vec3
    ensures { result ≡ mul_mat3_vec3 m v }
{
    let d = m.data;
    Vec3 {
        x: d[0] * v.x + d[1] * v.y + d[2] * v.z,
        y: d[3] * v.x + d[4] * v.y + d[5] * v.z,
        z: d[6] * v.x + d[7] * v.y + d[8] * v.z,
    }
}

// The vector as a column.
impl From<Vec3> for Vector3 {
    ghost from_gives = { λ v m. m.«data» ≡ to_array v };

    fn from(v: Vec3) -> Vector3 {
        Vector3 {
            data: [v.x, v.y, v.z],
        }
    }
}

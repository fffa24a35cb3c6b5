// Port of math/quat.rs: quaternions, scalar first, by value. What needs a function that no paper defines is left out.
// `from_array` and `to_array` have the original's names, and the product is a named function, as document 01 wants the operators.
// The definitions that a proof opens.
#![tactic(auto, unfolding(crate::specs::Quat::norm_quat, crate::specs::Quat::normalized_quat, crate::specs::Quat::conjugate, crate::specs::Quat::rotate, crate::specs::Quat::rotate_inverse, crate::specs::Quat::canonicalized, crate::specs::Quat::short_rotation, crate::specs::Quat::from_rotation_vector, crate::specs::Quat::to_dcm, crate::specs::Quat::finite_quat, crate::specs::Quat::mul_quat))]

ghost use Rattle.std.specs.Prelude.{◌≡◌};
ghost use Rattle.drifters_quat.specs.Quat.{quat, from_parts, vector, to_array, from_array, norm_quat, normalized_quat, conjugate, rotate, rotate_inverse, canonicalized, short_rotation, from_rotation_vector, to_dcm, finite_quat, mul_quat};

use drifters_core::math::vec3::Vec3;
use drifters_matrix::math::matrix::Mat3;
use drifters_real::math::real::{SMALL_ANGLE, is_finite, sin_cos, sqrt};

#[derive(Clone, Copy)]
pub struct Quat {
    pub w: f64,
    pub x: f64,
    pub y: f64,
    pub z: f64,
}

impl Quat {
    // The identity rotation.
    pub const IDENTITY: Quat = Quat {
        w: 1.0,
        x: 0.0,
        y: 0.0,
        z: 0.0,
    };

    pub fn new(w: f64, x: f64, y: f64, z: f64) -> Quat
        ensures { result ≡ quat w x y z }
    {
        Quat { w, x, y, z }
    }

    pub fn from_parts(w: f64, v: Vec3) -> Quat
        ensures { result ≡ from_parts w v }
    {
        Quat {
            w,
            x: v.x,
            y: v.y,
            z: v.z,
        }
    }

    pub fn vector(self) -> Vec3
        ensures { result ≡ vector self }
    {
        Vec3 {
            x: self.x,
            y: self.y,
            z: self.z,
        }
    }

    pub fn to_array(self) -> [f64; 4]
        ensures { result ≡ to_array self }
    {
        [self.w, self.x, self.y, self.z]
    }

    pub fn from_array(a: [f64; 4]) -> Quat
        ensures { result ≡ from_array a }
    {
        Quat {
            w: a[0],
            x: a[1],
            y: a[2],
            z: a[3],
        }
    }

    pub fn norm(self) -> f64
        ensures { result ≡ norm_quat self }
    {
        sqrt(self.w * self.w + self.x * self.x + self.y * self.y + self.z * self.z)
    }

    // The identity where the norm is not above 0.
    pub fn normalized(self) -> Quat
        ensures { result ≡ normalized_quat self }
    {
        let n = self.norm();
        if n > 0.0 {
            Quat {
                w: self.w / n,
                x: self.x / n,
                y: self.y / n,
                z: self.z / n,
            }
        } else {
            Quat::IDENTITY
        }
    }

    pub fn conjugate(self) -> Quat
        ensures { result ≡ conjugate self }
    {
        Quat {
            w: self.w,
            x: -self.x,
            y: -self.y,
            z: -self.z,
        }
    }

    pub fn rotate(self, v: Vec3) -> Vec3
        ensures { result ≡ rotate self v }
    {
        let u = self.vector();
        let t = u.cross(v).mul(2.0);
        v.add(t.mul(self.w)).add(u.cross(t))
    }

    pub fn rotate_inverse(self, v: Vec3) -> Vec3
        ensures { result ≡ rotate_inverse self v }
    {
        self.conjugate().rotate(v)
    }

    // The same rotation with a scalar part that is not below 0.
    pub fn canonicalized(self) -> Quat
        ensures { result ≡ canonicalized self }
    {
        if self.w < 0.0 {
            Quat {
                w: -self.w,
                x: -self.x,
                y: -self.y,
                z: -self.z,
            }
        } else {
            self
        }
    }

    // The short form, for an angle below SMALL_ANGLE.
    fn short_rotation(phi: Vec3, angle: f64) -> Quat
        ensures { result ≡ short_rotation phi angle }
    {
        let a2 = angle * angle;
        let s = 0.5 - a2 / 48.0;
        Quat::from_parts(1.0 - a2 / 8.0, phi.mul(s)).normalized()
    }

    // The exponential map: rotation vector, axis times angle, to quaternion.
    pub fn from_rotation_vector(phi: Vec3) -> Quat
        ensures { result ≡ from_rotation_vector phi }
    {
        let angle = phi.norm();
        if angle < SMALL_ANGLE {
            Quat::short_rotation(phi, angle)
        } else {
            let half = sin_cos(0.5 * angle);
            Quat::from_parts(half.cos, phi.mul(half.sin / angle))
        }
    }

    // The direction cosine matrix.
    pub fn to_dcm(self) -> Mat3
        ensures { result ≡ to_dcm self }
    {
        let xx = self.x * self.x;
        let yy = self.y * self.y;
        let zz = self.z * self.z;
        let xy = self.x * self.y;
        let xz = self.x * self.z;
        let yz = self.y * self.z;
        let wx = self.w * self.x;
        let wy = self.w * self.y;
        let wz = self.w * self.z;
        Mat3 {
            data: [
                1.0 - 2.0 * (yy + zz),
                2.0 * (xy - wz),
                2.0 * (xz + wy),
                2.0 * (xy + wz),
                1.0 - 2.0 * (xx + zz),
                2.0 * (yz - wx),
                2.0 * (xz - wy),
                2.0 * (yz + wx),
                1.0 - 2.0 * (xx + yy),
            ],
        }
    }

    pub fn is_finite(self) -> bool
        ensures { result ≡ finite_quat self }
    {
        is_finite(self.w) & is_finite(self.x) & is_finite(self.y) & is_finite(self.z)
    }

    // The Hamilton product.
    pub fn mul(self, rhs: Quat) -> Quat
        ensures { result ≡ mul_quat self rhs }
    {
        Quat {
            w: self.w * rhs.w - self.x * rhs.x - self.y * rhs.y - self.z * rhs.z,
            x: self.w * rhs.x + self.x * rhs.w + self.y * rhs.z - self.z * rhs.y,
            y: self.w * rhs.y - self.x * rhs.z + self.y * rhs.w + self.z * rhs.x,
            z: self.w * rhs.z + self.x * rhs.y - self.y * rhs.x + self.z * rhs.w,
        }
    }
}

// Port of lift.rs: the lift of the dynamics to the algebra, by value.
#![tactic(auto, unfolding(crate::specs::Lift::lift))]

ghost use Rattle.std.specs.Prelude.{◌≡◌};
ghost use Rattle.drifters_symmetry.specs.Lift.{lift};

use crate::group::{Algebra, State};
use drifters_core::math::vec3::{Vec3, mul_vec3};
use drifters_lie::lie::Se23Tangent;

// The measurements of the gyroscope and the accelerometer, in the body frame.
#[derive(Clone, Copy)]
pub struct Input {
    pub omega: Vec3,
    pub accel: Vec3,
}

// The lift at the state xi, for the input u. The parameters are the original's.
pub fn lift(xi: State, u: Input, gravity: Vec3) -> Algebra
    ensures { result ≡ lift xi u gravity }
{
    let r_t = xi.pose.rotation.transpose();
    let rate = u.omega.sub(xi.bias.omega);
    let c = Se23Tangent::new(
        rate,
        u.accel.sub(xi.bias.nu).add(mul_vec3(r_t, gravity)),
        mul_vec3(r_t, xi.pose.velocity),
    );
    Algebra {
        c,
        gamma: xi.bias.bracket(c.pi()),
        delta: xi.lever.cross(rate),
        e: mul_vec3(xi.mag.transpose(), rate),
    }
}

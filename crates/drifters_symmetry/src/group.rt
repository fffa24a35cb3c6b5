// Port of group.rs: the symmetry group, its algebra, and its action on the state, by value. `from_array` and `to_array` have the original's names.
#![tactic(auto, unfolding(crate::specs::Group::compose, crate::specs::Group::inverse, crate::specs::Group::scaled_algebra, crate::specs::Group::bracket, crate::specs::Group::ad, crate::specs::Group::exp, crate::specs::Group::adjoint_apply, crate::specs::Group::from_state, crate::specs::Group::act_state, crate::specs::Group::act_direction, crate::specs::Group::act_position, crate::specs::Group::act_velocity))]

ghost use Rattle.std.specs.Prelude.{◌≡◌, ◌+◌, ◌≤◌};
ghost use Rattle.drifters_lie.specs.Lie.{vec3_at, chi};
ghost use Rattle.drifters_symmetry.specs.Group.{compose, inverse, to_array21, scaled_algebra, from_array21, bracket, ad, exp, adjoint_apply, default_state, from_state, act_state, act_direction, act_position, act_velocity};

use drifters_adjoint::adjoint::integrated_adjoint;
use drifters_core::math::vec3::{Vec3, mul_vec3};
use drifters_lie::lie::{Se3, Se3Tangent, Se23, Se23Tangent, left_jacobian};
use drifters_matrix::math::matrix::{Mat3, Mat21, Vector6, unit};
use drifters_quat::math::quat::Quat;

// The 21 coordinates of the error, and of its covariance: the error of the estimate in the normal coordinates of the group, three to each
// part, in this order: attitude (rad), velocity (m/s), position (m), gyroscope bias (rad/s), accelerometer bias (m/s²), lever arm (m),
// magnetometer calibration (rad).
pub const ATTITUDE: usize = 0;

pub const VELOCITY: usize = ATTITUDE + 3;

pub const POSITION: usize = VELOCITY + 3;

pub const GYRO_BIAS: usize = POSITION + 3;

pub const ACCEL_BIAS: usize = GYRO_BIAS + 3;

pub const LEVER: usize = ACCEL_BIAS + 3;

pub const MAG: usize = LEVER + 3;

// An element of the symmetry group: C acts on the extended pose, gamma is the bias part, delta the lever arm's, E the
// magnetometer calibration's.
#[derive(Clone, Copy)]
pub struct Symmetry {
    pub c: Se23,
    pub gamma: Se3Tangent,
    pub delta: Vec3,
    pub e: Mat3,
}

impl Symmetry {
    // The rotation block A.
    pub fn a(self) -> Mat3
        ensures { result ≡ self.c.rotation }
    {
        self.c.rotation
    }

    // The SE(3) factor B.
    pub fn b(self) -> Se3
        ensures { result ≡ chi self.c }
    {
        self.c.chi()
    }

    // The group product.
    pub fn compose(self, other: Symmetry) -> Symmetry
        ensures { result ≡ compose self other }
    {
        Symmetry {
            c: self.c.compose(other.c),
            gamma: self.gamma.add(self.b().adjoint_apply(other.gamma)),
            delta: self.delta.add(mul_vec3(self.a(), other.delta)),
            e: self.e.matmul(&other.e),
        }
    }

    // The group inverse.
    pub fn inverse(self) -> Symmetry
        ensures { result ≡ inverse self }
    {
        Symmetry {
            c: self.c.inverse(),
            gamma: self.b().inverse().adjoint_apply(self.gamma).neg(),
            delta: mul_vec3(self.a().transpose(), self.delta).neg(),
            e: self.e.transpose(),
        }
    }

    // The exponential. The left Jacobian serves C and delta.
    #[tactic(auto, unfolding(crate::specs::Group::exp, drifters_lie::specs::Lie::exp_se23))]
    pub fn exp(u: Algebra) -> Symmetry
        ensures { result ≡ exp u }
    {
        let t = u.c;
        let jacobian = left_jacobian(t.omega);
        let bias = u.gamma.to_array();
        let gamma: Vector6 = integrated_adjoint(t.pi()).matmul(&Vector6 { data: bias });
        Symmetry {
            c: Se23::exp_with(t, jacobian),
            gamma: Se3Tangent::from_array(gamma.data),
            delta: mul_vec3(jacobian, u.delta),
            e: Quat::from_rotation_vector(u.e).to_dcm(),
        }
    }

    // The adjoint, applied without its matrix.
    pub fn adjoint_apply(self, u: Algebra) -> Algebra
        ensures { result ≡ adjoint_apply self u }
    {
        let a = self.a();
        let b = self.b();
        let t = u.c;
        Algebra {
            c: self.c.adjoint_apply(t),
            gamma: self
                .gamma
                .bracket(b.adjoint_apply(t.pi()))
                .add(b.adjoint_apply(u.gamma)),
            delta: self
                .delta
                .cross(mul_vec3(a, t.omega))
                .add(mul_vec3(a, u.delta)),
            e: mul_vec3(self.e, u.e),
        }
    }

    // The element that takes the origin to xi.
    pub fn from_state(xi: State) -> Symmetry
        ensures { result ≡ from_state xi }
    {
        let c = xi.pose;
        Symmetry {
            c,
            gamma: c.chi().adjoint_apply(xi.bias).neg(),
            delta: mul_vec3(c.rotation, xi.lever).neg(),
            e: c.rotation.matmul(&xi.mag),
        }
    }
}

// A tangent vector of the symmetry group at the identity: the 21 coordinates, in their order.
#[derive(Clone, Copy)]
pub struct Algebra {
    pub c: Se23Tangent,
    pub gamma: Se3Tangent,
    pub delta: Vec3,
    pub e: Vec3,
}

impl Algebra {
    // Entry by entry: the arrays of its parts, flattened, would have to be copied into this one besides, which is no shorter.
    pub fn to_array(self) -> [f64; 21]
        ensures { result ≡ to_array21 self }
    {
        let o = self.c.omega;
        let n = self.c.nu;
        let r = self.c.rho;
        let p = self.gamma.omega;
        let q = self.gamma.nu;
        let d = self.delta;
        let e = self.e;
        [
            o.x, o.y, o.z, n.x, n.y, n.z, r.x, r.y, r.z, p.x, p.y, p.z, q.x, q.y, q.z, d.x, d.y,
            d.z, e.x, e.y, e.z,
        ]
    }

    // Every component times s.
    pub fn scaled(self, s: f64) -> Algebra
        ensures { result ≡ scaled_algebra self s }
    {
        Algebra {
            c: self.c.scaled(s),
            gamma: self.gamma.scaled(s),
            delta: self.delta.mul(s),
            e: self.e.mul(s),
        }
    }

    // By the names of the places: chunks of three would have numbers for them.
    pub fn from_array(v: [f64; 21]) -> Algebra
        ensures { result ≡ from_array21 v }
    {
        Algebra {
            c: Se23Tangent::new(
                vec3_at(&v, ATTITUDE),
                vec3_at(&v, VELOCITY),
                vec3_at(&v, POSITION),
            ),
            gamma: Se3Tangent::new(vec3_at(&v, GYRO_BIAS), vec3_at(&v, ACCEL_BIAS)),
            delta: vec3_at(&v, LEVER),
            e: vec3_at(&v, MAG),
        }
    }

    // The Lie bracket [self, other].
    pub fn bracket(self, other: Algebra) -> Algebra
        ensures { result ≡ bracket self other }
    {
        let a = self.c;
        let b = other.c;
        Algebra {
            c: Se23Tangent::new(
                a.omega.cross(b.omega),
                a.omega.cross(b.nu).sub(b.omega.cross(a.nu)),
                a.omega.cross(b.rho).sub(b.omega.cross(a.rho)),
            ),
            gamma: self.gamma.bracket(b.pi()).add(a.pi().bracket(other.gamma)),
            delta: self.delta.cross(b.omega).add(a.omega.cross(other.delta)),
            e: self.e.cross(other.e),
        }
    }

    // The matrix of the bracket: column k is the bracket with unit k, set in its place: with `from_columns`, which takes the columns as an array,
    // an update took 6 % longer.
    pub fn ad(self) -> Mat21
        ensures { result.data ≡ ad self }
    {
        let mut m = Mat21::zeros();
        for k in 0..21 {
            m.set_column(k, self.bracket(Algebra::from_array(unit(k))).to_array());
        }
        m
    }
}

// The three coordinates from `start` on. layout.rt of drifters_entry has the same for its runs: a `requires` on a place stays in a crate.
fn vec3_at(v: &[f64; 21], start: usize) -> Vec3
    requires { start + 3 ≤ 21 }
    ensures { result ≡ vec3_at v.now start }
{
    Vec3::new(v[start], v[start + 1], v[start + 2])
}

// A point of the state manifold: extended pose, biases of the gyroscope and the accelerometer, lever arm, magnetometer calibration.
#[derive(Clone, Copy)]
pub struct State {
    pub pose: Se23,
    pub bias: Se3Tangent,
    pub lever: Vec3,
    pub mag: Mat3,
}

// The origin of the state space.
impl Default for State {
    ghost is_default = { λ x. x ≡ default_state };

    fn default() -> State {
        State {
            pose: Se23::identity(),
            bias: Se3Tangent::ZERO,
            lever: Vec3::ZERO,
            mag: Mat3::identity(),
        }
    }
}

// The action on the state.
pub fn act_state(x: Symmetry, xi: State) -> State
    ensures { result ≡ act_state x xi }
{
    let a_t = x.a().transpose();
    let mag: Mat3 = a_t.matmul(&xi.mag);
    State {
        pose: xi.pose.compose(x.c),
        bias: x.b().inverse().adjoint_apply(xi.bias.sub(x.gamma)),
        lever: mul_vec3(a_t, xi.lever.sub(x.delta)),
        mag: mag.matmul(&x.e),
    }
}

// The action on a direction.
pub fn act_direction(x: Symmetry, y: Vec3) -> Vec3
    ensures { result ≡ act_direction x y }
{
    mul_vec3(x.e.transpose(), y)
}

// The action on a position.
pub fn act_position(x: Symmetry, y: Vec3) -> Vec3
    ensures { result ≡ act_position x y }
{
    mul_vec3(x.a().transpose(), y.sub(x.c.position).add(x.delta))
}

// The action on a velocity, at an angular rate.
pub fn act_velocity(x: Symmetry, y: Vec3, omega: Vec3) -> Vec3
    ensures { result ≡ act_velocity x y omega }
{
    mul_vec3(
        x.a().transpose(),
        y.sub(x.c.velocity).sub(x.delta.cross(omega)),
    )
}

// Port of linear.rs: the linearised dynamics, the output matrices, and the measurements transported into the error frame, by value.
#![tactic(auto, unfolding(crate::specs::Linear::state_matrix, crate::specs::Linear::direction_output_matrix, crate::specs::Linear::position_output_matrix, crate::specs::Linear::velocity_output_matrix, crate::specs::Linear::transported_direction, crate::specs::Linear::transported_position, crate::specs::Linear::transported_velocity))]

ghost use Rattle.std.specs.Prelude.{◌≡◌};
ghost use Rattle.drifters_symmetry.specs.Linear.{state_matrix, skew_mean, direction_output_matrix, position_output_matrix, velocity_output_matrix, transported_direction, transported_position, transported_velocity};

use crate::group::{
    ACCEL_BIAS, ATTITUDE, GYRO_BIAS, LEVER, MAG, POSITION, Symmetry, VELOCITY, act_direction,
    act_position, act_velocity,
};
use crate::lift::Input;
use drifters_core::math::vec3::{Vec3, mul_vec3};
use drifters_lie::lie::Se23Tangent;
use drifters_matrix::math::matrix::{Mat3, Mat3x21, Mat21};

// The linearised dynamics at x, for the input u. The parameters here and of the output matrices are the original's.
pub fn state_matrix(x: Symmetry, u: Input, gravity: Vec3) -> Mat21
    ensures { result.data ≡ state_matrix x u gravity }
{
    let w = Se23Tangent::new(u.omega, u.accel, Vec3::ZERO);
    let g = Se23Tangent::new(Vec3::ZERO, gravity, Vec3::ZERO);
    let ad = x.gamma.add(x.c.adjoint_apply(w).add(g).pi()).ad();
    let a3 = mul_vec3(x.a(), u.omega).add(x.gamma.omega).skew();
    let one = Mat3::identity();
    let mut m = Mat21::zeros();
    m.set_block(VELOCITY, ATTITUDE, &gravity.skew());
    m.set_block(POSITION, VELOCITY, &one);
    m.set_block(ATTITUDE, GYRO_BIAS, &one);
    m.set_block(VELOCITY, ACCEL_BIAS, &one);
    m.set_block(POSITION, GYRO_BIAS, &x.c.position.skew());
    m.set_block(GYRO_BIAS, GYRO_BIAS, &ad);
    m.set_block(LEVER, LEVER, &a3);
    m.set_block(MAG, MAG, &a3);
    m.set_block(MAG, ATTITUDE, &a3.neg());
    m.set_block(MAG, GYRO_BIAS, &one);
    m
}

// The skew matrix of the mean of two vectors.
fn skew_mean(v: Vec3, w: Vec3) -> Mat3
    ensures { result ≡ skew_mean v w }
{
    v.add(w).mul(0.5).skew()
}

// The output matrix of a direction.
pub fn direction_output_matrix(origin: Vec3, transported: Vec3) -> Mat3x21
    ensures { result.data ≡ direction_output_matrix origin transported }
{
    let mean = skew_mean(origin, transported);
    let block: Mat3 = origin.skew().matmul(&mean);
    let mut m = Mat3x21::zeros();
    m.set_block(0, MAG, &block);
    m
}

// The output matrix of a position.
pub fn position_output_matrix(origin: Vec3, transported: Vec3) -> Mat3x21
    ensures { result.data ≡ position_output_matrix origin transported }
{
    let one = Mat3::identity();
    let mut m = Mat3x21::zeros();
    m.set_block(0, ATTITUDE, &skew_mean(origin, transported));
    m.set_block(0, POSITION, &one.neg());
    m.set_block(0, LEVER, &one);
    m
}

// The output matrix of a velocity, at the rate in the reference frame.
pub fn velocity_output_matrix(origin: Vec3, transported: Vec3, rate: Vec3) -> Mat3x21
    ensures { result.data ≡ velocity_output_matrix origin transported rate }
{
    let mut m = Mat3x21::zeros();
    m.set_block(0, ATTITUDE, &skew_mean(origin, transported));
    m.set_block(0, VELOCITY, &Mat3::identity().neg());
    m.set_block(0, LEVER, &rate.skew());
    m
}

// A measured direction in the error frame.
pub fn transported_direction(x: Symmetry, y: Vec3) -> Vec3
    ensures { result ≡ transported_direction x y }
{
    act_direction(x.inverse(), y)
}

// The predicted antenna position in the error frame.
pub fn transported_position(x: Symmetry) -> Vec3
    ensures { result ≡ transported_position x }
{
    act_position(x.inverse(), Vec3::ZERO)
}

// The predicted antenna velocity in the error frame.
pub fn transported_velocity(x: Symmetry, omega: Vec3) -> Vec3
    ensures { result ≡ transported_velocity x omega }
{
    act_velocity(x.inverse(), Vec3::ZERO, omega)
}

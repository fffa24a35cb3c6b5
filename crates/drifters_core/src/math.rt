// Vectors.
pub mod vec3;

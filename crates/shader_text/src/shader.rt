// What a listing holds.
use ir::{Body, Sizes, Source};

// A module's tables, and its functions' bodies in order. As in the tables, anything can stand here.
#[derive(PartialEq, Eq, Debug, Drop)]
pub struct Shader {
    pub source: Source,
    pub sizes: Sizes,
    pub bodies: Vec<Body>,
}

// The listing of a shader: the tables of a module and of any number of bodies as a text that people write and read.
#![tactic(auto)]

mod faults;
mod kind_names;
mod name_texts;
mod reading;
mod shader;
#[cfg(test)]
mod tests;
mod words;
mod writing;

pub use faults::{Fault, ShaderError};
pub use kind_names::{kind_name, kind_named};
pub use name_texts::{name_text, read_name_text};
pub use reading::{SIZE_NAMES, read_shader};
pub use shader::Shader;
pub use writing::write_shader;

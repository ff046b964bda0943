// Why nothing is said of a listing.
use shader_text::ShaderError;
use std::alloc::AllocError;
use thiserror::Error;

#[derive(Debug, Drop, Error)]
pub enum InspectionError {
    // A line of the listing was not understood.
    #[error(transparent)]
    Listing(#[from] ShaderError),
    #[error("memory ran out")]
    OutOfMemory(#[from(alloc)] AllocError),
}

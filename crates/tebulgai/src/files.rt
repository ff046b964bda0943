// Whole files, read and written.
use crate::failures::{Failure, FileError};
use std::alloc::Global;
use std::{fs, io};

// What was done with the file, or its error with the path.
pub(crate) fn on_file<T, E: Into<FileError> + Drop>(
    heap: Global,
    path: &str,
    done: Result<T, E>,
) -> Result<T, Failure> {
    done.try_map_err(|error| {
        let path = String::from_str(heap, path)?;
        let error = error.into();
        Ok(Failure::File { path, error })
    })
}

pub(crate) fn load(rt: &HostRuntime, path: &str) -> Result<Vec<u8>, Failure> {
    on_file(rt.alloc(), path, fs::read(rt, path))
}

pub(crate) fn load_text(rt: &HostRuntime, path: &str) -> Result<String, Failure> {
    on_file(rt.alloc(), path, fs::read_to_string(rt, path))
}

fn write_and_rename(rt: &HostRuntime, part: &str, path: &str, bytes: &[u8]) -> io::Result<()> {
    fs::write(rt, part, bytes)?;
    fs::rename(rt, part, path)
}

// Writes beside the file first, so that the file is never half written.
pub(crate) fn store(rt: &HostRuntime, path: &str, bytes: &[u8]) -> Result<(), Failure> {
    let heap = rt.alloc();
    let part = format!(in heap; "{path}.part")?;
    let done = write_and_rename(rt, part.as_str(), path, bytes);
    if done.is_err() {
        let _ = fs::remove_file(rt, part.as_str());
    }
    on_file(heap, path, done)
}

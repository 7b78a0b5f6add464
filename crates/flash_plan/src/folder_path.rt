ghost use Rattle.std.specs.Prelude.{◌+◌, ◌≤◌, vec_capacity};

use crate::dir::MOST_NAME;
use std::alloc::{AllocError, Global};
use std::str;

/// The path of a folder, with room for the name of a file in it.
#[derive(Drop)]
pub(crate) struct FolderPath {
    bytes: Vec<u8>,
    folder: usize,
    ghost room: { folder + 64 ≤ vec_capacity bytes },
}

impl FolderPath {
    /// The path and a slash.
    pub(crate) fn new(alloc: Global, path: &str) -> Result<FolderPath, AllocError> {
        let folder = path.len() + 1;
        let mut bytes = Vec::with_capacity(alloc, folder + MOST_NAME)?;
        bytes.extend_from_slice(path.as_bytes())?;
        bytes.push(b'/')?;
        Ok(FolderPath { bytes, folder })
    }

    /// The path of the file of this name, without taking memory. None where the name is too long or
    /// isn't text.
    pub(crate) fn path_of(&mut self, name: &[u8]) -> Option<&str> {
        if name.len() > MOST_NAME {
            return None;
        }
        self.bytes.truncate(self.folder);
        self.bytes.extend_from_slice(name).unwrap();
        str::from_utf8(self.bytes.as_slice()).ok()
    }
}

ghost use Rattle.std.specs.Prelude.{◌≡◌, ℕ, ◌+◌, ◌≤◌, length, Some, None, option_map};
ghost use Rattle.std.specs.Prelude.{IfSome, IfNone, OnOk, OnErr, IfOk};
ghost use Rattle.dev_disk.specs.Files.{written, HasOthers};
ghost use Rattle.dev_disk.specs.MemoryFiles.{file_of, place_of, path_at, length_at, IsFirst};

use std::alloc::AllocError;

/// A file of a disk in memory.
#[derive(Drop)]
pub struct MemoryFile {
    pub path: Vec<u8>,
    pub bytes: Vec<u8>,
}

#[tactic(auto, unfolding(crate::specs::MemoryFiles::place_of))]
fn first_place(files: &[MemoryFile], path: &[u8]) -> Option<usize>
    ensures { result ≡ place_of files.now path.now }
{
    files.iter().position(|file| file.path.as_slice() == path)
}

/// The place of the file of the path.
#[tactic(auto, using(crate::proofs::FileLists::finds))]
pub fn find_place(files: &[MemoryFile], path: &[u8]) -> Option<usize>
    ensures place { result ≡ place_of files.now path.now }
    ensures none { IfNone result (file_of files.now path.now ≡ None) }
    ensures first { IfSome result (λ place. IsFirst files.now place) }
    ensures path { IfSome result (λ place. path_at files.now place ≡ path.now) }
{
    match first_place(files, path) {
        Some(place) => Some(place),
        None => None,
    }
}

/// Writes the bytes over the old ones from the place `at` on.
#[tactic(auto, unfolding(crate::specs::Files::written))]
pub fn overwrite(old: &mut [u8], at: usize, bytes: &[u8])
    requires { at + length bytes.now ≤ length old.old }
    ensures { old.new ≡ written old.old at bytes.now }
{
    let end = at + bytes.len();
    old[at..end].copy_from_slice(bytes);
}

/// The bytes of the file at the place.
#[tactic(auto, using(crate::proofs::FileLists::reads))]
pub fn bytes_at(files: &[MemoryFile], place: usize) -> &[u8]
    requires first { IsFirst files.now place }
    ensures bytes { file_of files.now (path_at files.now place) ≡ Some result.now }
    ensures length { length result.now ≡ length_at files.now place }
{
    files[place].bytes.as_slice()
}

/// Writes the bytes over those of the file at the place.
#[tactic(auto, using(crate::proofs::FileLists::reads))]
pub fn overwrite_at(files: &mut [MemoryFile], place: usize, at: usize, bytes: &[u8])
    requires first { IsFirst files.old place }
    requires inside { at + length bytes.now ≤ length_at files.old place }
    ensures first { IsFirst files.new place }
    ensures path { path_at files.new place ≡ path_at files.old place }
    ensures length { length_at files.new place ≡ length_at files.old place }
    ensures here { file_of files.new (path_at files.old place)
        ≡ option_map (λ old. written old at bytes.now) (file_of files.old (path_at files.old place)) }
    ensures others { HasOthers (path_at files.old place) (file_of files.old) (file_of files.new) }
{
    let file = &mut files[place];
    overwrite(file.bytes.as_mut_slice(), at, bytes);
}

/// Puts a file into the list, in place of any one of its path, and answers its place.
pub fn put(files: &mut Vec<MemoryFile>, path: Vec<u8>, bytes: Vec<u8>) -> Result<usize, AllocError>
    ensures first { IfOk result (λ place. IsFirst files.new.items place) }
    ensures path { IfOk result (λ place. path_at files.new.items place ≡ path.items) }
    ensures length { IfOk result (λ place. length_at files.new.items place ≡ length bytes.items) }
    ensures here { OnOk result (file_of files.new.items path.items ≡ Some bytes.items) }
    ensures others { HasOthers path.items (file_of files.old.items) (file_of files.new.items) }
    ensures same { OnErr result (files.new.items ≡ files.old.items) }
    ensures firsts { (place : ℕ) → IsFirst files.old.items place → IsFirst files.new.items place }
    ensures paths { (place : ℕ) → IsFirst files.old.items place →
        path_at files.new.items place ≡ path_at files.old.items place }
{
    match find_place(files, path.as_slice()) {
        Some(place) => {
            files[place].bytes = bytes;
            Ok(place)
        }
        None => {
            let place = files.len();
            files.push(MemoryFile { path, bytes })?;
            Ok(place)
        }
    }
}

ghost use Rattle.std.specs.Prelude.{◌≡◌, ℕ, ◌+◌, ◌-◌, ◌*◌, ◌^◌, ◌<◌, ◌≤◌, ◌++◌, [], length, take, drop, min, IfOk, OnOk, OnErr, List, IfSome, None, Some, Ok, Err};
ghost use Rattle.std.specs.Result.{IsErrOf};
ghost use Rattle.fb_frame.specs.Causes.{Rose, HasCause};
ghost use Rattle.dev_model.specs.Images.{is_sparse};
ghost use Rattle.sparse_image.specs.Pieces.{whole_len};
ghost use Rattle.sparse_image.specs.Cuts.{Splits, HasBytesLeft, most_left};
ghost use Rattle.sparse_image.specs.Walks.{IsChecked, HasKeptImage, HasNoImage, sparse_checked, raw_checked, front_of, header_of, chunk_len, kept, walked, LiesIn, IsFine, AreWell};

use crate::chunk::{Chunk, Content};
use crate::errors::{SparseError, SparseKind};
use crate::pieces::Pieces;
use crate::reads::read_exact;
use crate::rest::Rest;
use crate::source::{Bytes, BytesFault};
use crate::walk::{HEAD, HEADER, Header, RAW_LIMIT, check_end, front_chunk, is_sparse, padding};
use crate::window::{AHEAD, Window};
use std::alloc::Global;
use std::marker::Model;

/// Why a source has no index.
#[derive(Debug, Drop)]
pub enum CheckError {
    /// It is no image file.
    Bad(SparseError),
    /// It couldn't be read.
    Read,
    /// There was no memory.
    Memory,
}

/// The chunk at a place of a source of `len` bytes.
#[tactic(auto, using(crate::proofs::CheckLemmas::fronts))]
fn next_chunk<B: Bytes>(
    source: &mut B,
    len: u64,
    block: u32,
    blocks: u32,
    place: u64,
) -> Result<Chunk, CheckError>
    requires len { len ≡ B.size source.old }
    requires told { IfSome (B.content source.old) (λ file. length file ≡ len) }
    requires within { place ≤ len }
    ensures chunk { IfOk result (λ chunk. IfSome (B.content source.old) (λ file. front_of block blocks place
        (length (drop place file)) (drop place file) ≡ Ok chunk)) }
    ensures due { IfOk result (λ chunk. chunk.blocks ≤ blocks) }
    ensures room { IfOk result (λ chunk. place + chunk_len block chunk ≤ len) }
    ensures lies { IfOk result (λ chunk. LiesIn len (chunk.blocks * block) chunk.content) }
    ensures flaw { (flaw : _) → IsErrOf result (CheckError.Bad flaw)
        → IfSome (B.content source.old) (λ file. front_of block blocks place (length (drop place file))
        (drop place file) ≡ Err flaw) }
    ensures read { IsErrOf result CheckError.Read → Rose (B.faults source.old) (B.faults source.new) }
    ensures memory { ¬ IsErrOf result CheckError.Memory }
    ensures content { B.content source.new ≡ B.content source.old }
    ensures same { B.lent source.new ≡ B.lent source.old }
    ensures size { B.size source.new ≡ B.size source.old }
    ensures later { B.faults source.old ≤ B.faults source.new }
{
    let left = len - place;
    let mut room = [0; 16];
    let front = &mut room[..left.min(16) as usize];
    let Ok(()) = read_exact(source, place, front) else {
        return Err(CheckError::Read);
    };
    match front_chunk(block, blocks, place, left, front) {
        Ok(chunk) => Ok(chunk),
        Err(flaw) => Err(CheckError::Bad(flaw)),
    }
}

/// Whether a source of `len` bytes begins with the magic number of sparse files.
#[tactic(auto, using(crate::proofs::CheckLemmas::magics))]
fn begins_sparse<B: Bytes>(source: &mut B, len: u64) -> Result<bool, BytesFault>
    requires len { len ≡ B.size source.old }
    requires told { IfSome (B.content source.old) (λ file. length file ≡ len) }
    ensures sparse { IfOk result (λ sparse. IfSome (B.content source.old) (λ file. is_sparse file ≡ sparse)) }
    ensures content { B.content source.new ≡ B.content source.old }
    ensures same { B.lent source.new ≡ B.lent source.old }
    ensures size { B.size source.new ≡ B.size source.old }
    ensures cause { HasCause (B.faults source.old) (B.faults source.new) result }
{
    let mut room = [0; 4];
    let front = &mut room[..len.min(4) as usize];
    read_exact(source, 0, front)?;
    Ok(is_sparse(front))
}

/// The header of a sparse source of `len` bytes.
#[tactic(auto, using(crate::proofs::CheckLemmas::headers))]
fn read_header<B: Bytes>(source: &mut B, len: u64) -> Result<Header, CheckError>
    requires len { len ≡ B.size source.old }
    requires told { IfSome (B.content source.old) (λ file. length file ≡ len) }
    ensures header { IfOk result (λ header. IfSome (B.content source.old) (λ file. header_of
        (length file) file ≡ Ok header)) }
    ensures fine { IfOk result (λ header. IsFine header) }
    ensures long { OnOk result (28 ≤ len) }
    ensures flaw { (flaw : _) → IsErrOf result (CheckError.Bad flaw)
        → IfSome (B.content source.old) (λ file. header_of (length file) file ≡ Err flaw) }
    ensures read { IsErrOf result CheckError.Read → Rose (B.faults source.old) (B.faults source.new) }
    ensures content { B.content source.new ≡ B.content source.old }
    ensures same { B.lent source.new ≡ B.lent source.old }
    ensures size { B.size source.new ≡ B.size source.old }
    ensures later { B.faults source.old ≤ B.faults source.new }
{
    let mut room = [0; HEADER];
    let head = &mut room[..len.min(HEADER as u64) as usize];
    let Ok(()) = read_exact(source, 0, head) else {
        return Err(CheckError::Read);
    };
    match Header::read(head, len) {
        Ok(header) => Ok(header),
        Err(flaw) => Err(CheckError::Bad(flaw)),
    }
}

/// Keeps a chunk of at least one block.
fn keep(chunks: &mut Vec<Chunk>, chunk: Chunk) -> Result<(), CheckError>
    ensures kept { OnOk result (chunks.new.items ≡ chunks.old.items ++ kept chunk []) }
    ensures memory { OnErr result (IsErrOf result CheckError.Memory) }
{
    if chunk.blocks > 0 {
        chunks.push(chunk).map_err(|_| CheckError::Memory)?;
    }
    Ok(())
}

/// Room for the chunks that a sparse source of `len` bytes may have: as many as its header tells, and no
/// more than have their own headers behind it.
fn chunk_room(alloc: Global, len: u64, header: &Header) -> Result<Vec<Chunk>, CheckError>
    requires long { 28 ≤ len }
    ensures empty { IfOk result (λ chunks. chunks.items ≡ []) }
    ensures memory { OnErr result (IsErrOf result CheckError.Memory) }
{
    let fronts = (len - HEADER as u64) / HEAD as u64;
    let room = fronts.min(u64::from(header.chunks)) as usize;
    Vec::with_capacity(alloc, room).map_err(|_| CheckError::Memory)
}

/// The kept chunks of a sparse source.
fn read_chunks<B: Bytes>(
    alloc: Global,
    source: &mut B,
    len: u64,
    header: &Header,
) -> Result<Vec<Chunk>, CheckError>
    requires len { len ≡ B.size source.old }
    requires told { IfSome (B.content source.old) (λ file. length file ≡ len) }
    requires long { 28 ≤ len }
    ensures chunks { IfOk result (λ chunks. IfSome (B.content source.old)
        (λ file. walked header.now.chunks header.now.block header.now.blocks 28
        (drop 28 file) ≡ Ok chunks.items)) }
    ensures well { IfOk result (λ chunks. AreWell header.now.block len header.now.blocks chunks.items) }
    ensures few { IfOk result (λ chunks. length chunks.items ≤ header.now.chunks) }
    ensures most { OnOk result (len ≤ 28 + header.now.blocks * header.now.block + 16 * header.now.chunks) }
    ensures flaw { (flaw : _) → IsErrOf result (CheckError.Bad flaw)
        → IfSome (B.content source.old)
        (λ file. walked header.now.chunks header.now.block header.now.blocks 28 (drop 28 file) ≡ Err flaw) }
    ensures read { IsErrOf result CheckError.Read → Rose (B.faults source.old) (B.faults source.new) }
    ensures content { B.content source.new ≡ B.content source.old }
    ensures same { B.lent source.new ≡ B.lent source.old }
    ensures size { B.size source.new ≡ B.size source.old }
    ensures later { B.faults source.old ≤ B.faults source.new }
{
    let mut chunks = chunk_room(alloc, len, header)?;
    let mut blocks = header.blocks;
    let mut place = HEADER as u64;
    for _ in 0..header.chunks {
        let chunk = next_chunk(source, len, header.block, blocks, place)?;
        blocks -= chunk.blocks;
        place += chunk.len(header.block);
        keep(&mut chunks, chunk)?;
    }
    match check_end(blocks, place, len - place) {
        Ok(()) => Ok(chunks),
        Err(flaw) => Err(CheckError::Bad(flaw)),
    }
}

/// What is kept of an image file whose every part was looked at.
#[derive(Debug, Drop)]
pub struct Index {
    sparse: bool,
    source_len: u64,
    block: u32,
    blocks: u32,
    chunks: Vec<Chunk>,
}

impl Model for Index {
    ghost use Rattle.sparse_image.specs.Walks.{Kept, IsKept};

    ghost Value = { Kept };

    ghost view = { λ index. record { sparse = index.sparse; source_len = index.source_len; block = index.block; blocks = index.blocks; chunks = index.chunks.items } };

    ghost invariant = { λ index. IsKept (record { sparse = index.sparse; source_len = index.source_len; block = index.block; blocks = index.blocks; chunks = index.chunks.items }) };
}

impl Index {
    /// How many bytes the whole image has.
    pub fn len(&self) -> u64
        ensures len { result ≡ self.now.blocks * self.now.block }
        ensures some { 0 < result }
        ensures short { result ≤ 2 ^ 44 }
        ensures blocks { self.now.blocks < 2 ^ 32 }
    {
        u64::from(self.blocks) * u64::from(self.block)
    }

    /// How many chunks of at least one block there are; 1 for a raw file.
    pub fn chunks(&self) -> u32
        ensures count { result ≡ length self.now.chunks }
        ensures few { result ≤ 1000000 }
    {
        self.chunks.len() as u32
    }

    /// How many bytes the source has that was checked.
    pub fn source_len(&self) -> u64
        ensures { result ≡ self.now.source_len }
    {
        self.source_len
    }

    /// How many blocks the image has.
    pub(crate) fn blocks(&self) -> u32
        ensures { result ≡ self.now.blocks }
    {
        self.blocks
    }

    /// How many bytes the file has where it is sent whole: a raw one with its padding.
    pub(crate) fn whole_len(&self) -> u64
        ensures { result ≡ whole_len self.now }
    {
        if self.sparse {
            self.source_len
        } else {
            self.len()
        }
    }

    /// The pieces of the file, each of at most `max` bytes and 1,000,000 chunks. Put over one after
    /// another, each as the file that it is, they are the whole image put over.
    pub fn pieces(&self, max: u32) -> Pieces<'_>
        requires large { 131072 ≤ max }
        ensures begin { result ≡ record { kept = self.now; max = max; first = 0 } }
        ensures most { most_left result ≤ self.now.blocks * self.now.block + 16 * 1000000 }
        ensures bytes { HasBytesLeft self.now result }
        ensures split { Splits self.now max result }
    {
        let rest = Rest::new(self.block, self.chunks.as_slice());
        Pieces::new(self, max, rest)
    }
}

/// The index of a sparse source, through small reads.
#[tactic(auto, using(crate::proofs::CheckLemmas::indexes))]
fn read_sparse<B: Bytes>(alloc: Global, source: &mut B, len: u64) -> Result<Index, CheckError>
    requires len { len ≡ B.size source.old }
    requires told { IfSome (B.content source.old) (λ file. length file ≡ len) }
    ensures index { IfOk result (λ index. IfSome (B.content source.old)
        (λ file. sparse_checked file ≡ Ok index)) }
    ensures source_len { IfOk result (λ index. index.source_len ≡ len) }
    ensures flaw { (flaw : _) → IsErrOf result (CheckError.Bad flaw)
        → IfSome (B.content source.old) (λ file. sparse_checked file ≡ Err flaw) }
    ensures read { IsErrOf result CheckError.Read → Rose (B.faults source.old) (B.faults source.new) }
    ensures content { B.content source.new ≡ B.content source.old }
    ensures same { B.lent source.new ≡ B.lent source.old }
    ensures size { B.size source.new ≡ B.size source.old }
    ensures later { B.faults source.old ≤ B.faults source.new }
{
    let header = read_header(source, len)?;
    let chunks = read_chunks(alloc, source, len, &header)?;
    Ok(Index {
        sparse: true,
        source_len: len,
        block: header.block,
        blocks: header.blocks,
        chunks,
    })
}

/// The index of a sparse source, which is read through a window.
fn check_sparse<B: Bytes>(alloc: Global, source: &mut B, len: u64) -> Result<Index, CheckError>
    requires len { len ≡ B.size source.old }
    requires told { IfSome (B.content source.old) (λ file. length file ≡ len) }
    ensures index { IfOk result (λ index. IfSome (B.content source.old)
        (λ file. sparse_checked file ≡ Ok index)) }
    ensures source_len { IfOk result (λ index. index.source_len ≡ len) }
    ensures flaw { (flaw : _) → IsErrOf result (CheckError.Bad flaw)
        → IfSome (B.content source.old) (λ file. sparse_checked file ≡ Err flaw) }
    ensures read { IsErrOf result CheckError.Read → Rose (B.faults source.old) (B.faults source.new) }
    ensures content { B.content source.new ≡ B.content source.old }
    ensures same { B.lent source.new ≡ B.lent source.old }
    ensures size { B.size source.new ≡ B.size source.old }
    ensures later { B.faults source.old ≤ B.faults source.new }
{
    let mut room = [0; AHEAD];
    let mut window = Window::new(source, &mut room);
    read_sparse(alloc, &mut window, len)
}

/// The index of a raw source, of which its length tells all.
#[tactic(auto, using(crate::proofs::CheckLemmas::indexes))]
fn check_raw(alloc: Global, len: u64) -> Result<Index, CheckError>
    requires { 0 < len }
    ensures index { IfOk result (λ index. (file : List ℕ) → length file ≡ len → raw_checked file ≡ Ok index) }
    ensures source_len { IfOk result (λ index. index.source_len ≡ len) }
    ensures flaw { (flaw : _) → IsErrOf result (CheckError.Bad flaw) → (file : List ℕ) → length file ≡ len
        → raw_checked file ≡ Err flaw }
    ensures read { ¬ IsErrOf result CheckError.Read }
{
    if len > RAW_LIMIT {
        return Err(CheckError::Bad(SparseError::new(SparseKind::TooLong, 0)));
    }
    let blocks = ((len + padding(len)) / 4096) as u32;
    let chunk = Chunk {
        blocks,
        content: Content::Raw(0),
    };
    let chunks = Vec::from_slice(alloc, &[chunk]).map_err(|_| CheckError::Memory)?;
    Ok(Index {
        sparse: false,
        source_len: len,
        block: 4096,
        blocks,
        chunks,
    })
}

/// Looks at every chunk of an image file, through a window, and keeps where they stand; or
/// answers the first thing that is wrong with the file.
#[tactic(auto, using(crate::proofs::CheckLemmas::checks))]
pub fn check<B: Bytes>(alloc: Global, source: &mut B) -> Result<Index, CheckError>
    ensures index { IfOk result (λ index. IsChecked (B.content source.old) (Ok index)) }
    ensures image { IfOk result (λ index. HasKeptImage (B.content source.old) index) }
    ensures source_len { IfOk result (λ index. index.source_len ≡ B.size source.old) }
    ensures some { IfOk result (λ index. 0 < index.blocks) }
    ensures short { IfOk result (λ index. index.blocks * index.block ≤ 2 ^ 44) }
    ensures few { IfOk result (λ index. length index.chunks ≤ 1000000) }
    ensures flaw { (flaw : _) → IsErrOf result (CheckError.Bad flaw)
        → IsChecked (B.content source.old) (Err flaw) }
    ensures none { (flaw : _) → IsErrOf result (CheckError.Bad flaw) → HasNoImage (B.content source.old) }
    ensures read { IsErrOf result CheckError.Read → Rose (B.faults source.old) (B.faults source.new) }
    ensures content { B.content source.new ≡ B.content source.old }
    ensures same { B.lent source.new ≡ B.lent source.old }
    ensures size { B.size source.new ≡ B.size source.old }
    ensures later { B.faults source.old ≤ B.faults source.new }
{
    let len = source.len();
    if len == 0 {
        return Err(CheckError::Bad(SparseError::new(SparseKind::Empty, 0)));
    }
    let Ok(sparse) = begins_sparse(source, len) else {
        return Err(CheckError::Read);
    };
    if sparse {
        let index = check_sparse(alloc, source, len)?;
        return Ok(index);
    }
    let index = check_raw(alloc, len)?;
    Ok(index)
}

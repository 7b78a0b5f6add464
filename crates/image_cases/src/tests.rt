ghost use Rattle.std.specs.Prelude.{◌≡◌, ◌^◌, ◌<◌, length, None, Ok, OnOk};
ghost use Rattle.sparse_image.specs.Cuts.{PutsPart, part_len};
ghost use Rattle.sparse_image.specs.Outside.{Fell, HasRoom};
ghost use Rattle.sparse_image.specs.Walks.{IsChecked, checked};

use sparse_image::chunk::Chunk;
use sparse_image::errors::{PieceFault, SparseError, SparseKind};
use sparse_image::image_runs::runs;
use sparse_image::index::{CheckError, check};
use sparse_image::out::{MemoryOut, Out, OutFault};
use sparse_image::piece::Piece;
use sparse_image::pieces::Pieces;
use sparse_image::runs::Run;
use sparse_image::source::{Bytes, BytesFault, MemoryBytes};
use std::alloc::{AllocError, Global};
use std::mem::size_of;
use std::process::Abort;
use std::test::Fail;

/// Four blocks of 4,096 bytes: one of 0x33, two of a fill, one that is left as it was.
fn sparse_row(alloc: Global) -> Result<Vec<u8>, AllocError> {
    let mut file = Vec::new(alloc);
    file.extend_from_slice(
        b"\x3a\xff\x26\xed\x01\0\0\0\x1c\0\x0c\0\0\x10\0\0\x04\0\0\0\x03\0\0\0\0\0\0\0",
    )?;
    file.extend_from_slice(b"\xc1\xca\0\0\x01\0\0\0\x0c\x10\0\0")?;
    file.resize(4136, 0x33)?;
    file.extend_from_slice(b"\xc2\xca\0\0\x02\0\0\0\x10\0\0\0\xaa\xbb\xcc\xdd")?;
    file.extend_from_slice(b"\xc3\xca\0\0\x01\0\0\0\x0c\0\0\0")?;
    Ok(file)
}

/// What `check` finds wrong with a file.
fn flaw_of(alloc: Global, file: &[u8]) -> Option<SparseError> {
    let mut source = MemoryBytes::new(file);
    match check(alloc, &mut source) {
        Err(CheckError::Bad(flaw)) => Some(flaw),
        _ => None,
    }
}

#[test]
fn refuses_spoilt_files(rt: HostRuntime) -> Result<(), Fail> {
    let rows = [
        (4, 2, SparseKind::BadHeader, 4),
        (6, 1, SparseKind::BadHeader, 6),
        (8, 29, SparseKind::BadHeader, 8),
        (10, 16, SparseKind::BadHeader, 10),
        (12, 1, SparseKind::BadBlockSize, 12),
        (14, 1, SparseKind::BadBlockSize, 12),
        (16, 0, SparseKind::BadHeader, 16),
        (16, 5, SparseKind::CountMismatch, 16),
        (23, 1, SparseKind::TooLong, 20),
        (28, 0xc5, SparseKind::BadChunk, 28),
        (36, 13, SparseKind::BadChunk, 36),
        (4140, 9, SparseKind::CountMismatch, 4140),
        (4152, 0xc4, SparseKind::CrcChunk, 4152),
    ];
    for (place, byte, kind, at) in rows {
        let mut file = sparse_row(rt.alloc())?;
        assert!(rt; place < file.len());
        file[place] = byte;
        let want = Some(SparseError { kind, at });
        assert_eq!(rt; flaw_of(rt.alloc(), file.as_slice()), want, "byte {place}");
        assert_eq!(rt; runs(file.as_slice()).err(), want, "byte {place}");
    }
    Ok(())
}

#[test]
fn refuses_wrong_lengths(rt: HostRuntime) -> Result<(), Fail> {
    let mut file = sparse_row(rt.alloc())?;
    file.push(0)?;
    assert_eq!(rt; file.len(), 4165);
    let rows = [
        (0, SparseKind::Empty, 0),
        (27, SparseKind::Truncated, 27),
        (39, SparseKind::Truncated, 39),
        (4163, SparseKind::Truncated, 4163),
        (4165, SparseKind::TrailingBytes, 4164),
    ];
    for (len, kind, at) in rows {
        assert!(rt; len <= file.len());
        let want = Some(SparseError { kind, at });
        assert_eq!(rt; flaw_of(rt.alloc(), &file[..len]), want, "{len} bytes");
        assert_eq!(rt; runs(&file[..len]).err(), want, "{len} bytes");
    }
    Ok(())
}

#[test]
fn keeps_images(rt: HostRuntime) -> Result<(), Fail> {
    let file = sparse_row(rt.alloc())?;
    let mut source = MemoryBytes::new(file.as_slice());
    let index = check(rt.alloc(), &mut source)?;
    assert_eq!(rt; index.len(), 16_384);
    assert_eq!(rt; index.chunks(), 3);
    assert_eq!(rt; index.source_len(), 4164);
    for (len, whole) in [(163_840, 163_840), (131_072, 131_072), (4097, 8192)] {
        let mut raw = Vec::new(rt.alloc());
        raw.resize(len, 0x11)?;
        let mut source = MemoryBytes::new(raw.as_slice());
        let index = check(rt.alloc(), &mut source)?;
        assert_eq!(rt; index.len(), whole);
        assert_eq!(rt; index.chunks(), 1);
    }
    Ok(())
}

#[test]
fn gives_runs(rt: HostRuntime) -> Result<(), Fail> {
    let file = sparse_row(rt.alloc())?;
    assert_eq!(rt; file.len(), 4164);
    let mut left = runs(file.as_slice()).map_err(|_| "bad image")?;
    assert_eq!(rt; left.len(), 16_384);
    let Some(Run::Copy { at, bytes }) = left.next() else {
        return Err("no bytes".into());
    };
    assert_eq!(rt; (at, bytes), (0, &file[40..4136]));
    let Some(
        Run::Fill {
            at,
            length,
            pattern,
        },
    ) = left.next()
    else {
        return Err("no fill".into());
    };
    assert_eq!(rt;
        (at, length, pattern),
        (4096, 8192, [0xaa, 0xbb, 0xcc, 0xdd])
    );
    assert!(rt; left.next().is_none());
    assert!(rt; left.next().is_none());
    Ok(())
}

/// A source of zeros that tells only its length.
#[derive(Drop)]
struct Zeros {
    len: u64,
}

impl Bytes for Zeros {
    ghost content = { λ source. None };

    ghost size = { λ source. source.len };

    ghost faults = { λ source. 0 };

    ghost lent = { λ source. tt };

    fn len(&self) -> u64 {
        self.len
    }

    fn read_at(&mut self, at: u64, buf: &mut [u8]) -> Result<usize, BytesFault> {
        if at >= self.len {
            return Ok(0);
        }
        let n = (self.len - at).min(buf.len() as u64) as usize;
        buf[..n].fill(0);
        Ok(n)
    }
}

#[test]
fn refuses_raw_files_too_long(rt: HostRuntime) -> Result<(), Fail> {
    let mut longest = Zeros {
        len: (1 << 44) - 4096,
    };
    assert_eq!(rt; check(rt.alloc(), &mut longest)?.len(), (1 << 44) - 4096);
    let mut longer = Zeros {
        len: (1 << 44) - 4095,
    };
    let found = match check(rt.alloc(), &mut longer) {
        Err(CheckError::Bad(flaw)) => Some(flaw),
        _ => None,
    };
    assert_eq!(rt;
        found,
        Some(SparseError {
            kind: SparseKind::TooLong,
            at: 0
        })
    );
    Ok(())
}

#[test]
fn puts_into_memory(rt: HostRuntime) -> Result<(), Fail> {
    let mut out = MemoryOut::new(rt.alloc(), 3).map_err(|_| "no memory")?;
    out.put(b"ab").map_err(|_| "no room")?;
    assert_eq!(rt; out.bytes(), b"ab".as_slice());
    Ok(())
}

/// A sparse file of chunks, each a type, blocks, and how many bytes of data, which are all 0x33.
fn sparse_file(
    alloc: Global,
    block: u32,
    blocks: u32,
    chunks: &[(u16, u32, u32)],
) -> Result<Vec<u8>, AllocError>
    requires { length chunks.now < 2 ^ 32 }
{
    let mut file = Vec::new(alloc);
    file.extend_from_slice(b"\x3a\xff\x26\xed\x01\0\0\0\x1c\0\x0c\0")?;
    file.extend_from_slice(&block.to_le_bytes())?;
    file.extend_from_slice(&blocks.to_le_bytes())?;
    file.extend_from_slice(&(chunks.len() as u32).to_le_bytes())?;
    file.extend_from_slice(&[0; 4])?;
    for (kind, blocks, data) in chunks {
        file.extend_from_slice(&kind.to_le_bytes())?;
        file.extend_from_slice(&[0; 2])?;
        file.extend_from_slice(&blocks.to_le_bytes())?;
        file.extend_from_slice(&data.wrapping_add(12).to_le_bytes())?;
        file.resize(file.len().saturating_add(*data as usize), 0x33)?;
    }
    Ok(file)
}

/// An out that counts the puts into another one, which it borrows.
#[derive(Drop)]
struct CountedOut<'a, O: Out> {
    out: &'a mut O,
    puts: u64,
}

impl<O: Out> Out for CountedOut<'_, O> {
    ghost use Rattle.std.specs.Borrow.{GName};

    ghost put_so_far = { λ counted. O.put_so_far counted.out.now };

    ghost room = { λ counted. O.room counted.out.now };

    ghost faults = { λ counted. O.faults counted.out.now };

    ghost Lent = { GName × O.Lent };

    ghost lent = { λ counted. (counted.out.ghost_name, O.lent counted.out.now) };

    ghost Whole = { O.Whole };

    ghost whole = { λ counted. O.whole counted.out.now };

    fn put(&mut self, bytes: &[u8]) -> Result<(), OutFault> {
        self.puts = self.puts.saturating_add(1);
        self.out.put(bytes)
    }
}

/// Writes a piece through a wrapper that borrows the out, and so leaves in the out what `write` leaves.
fn write_counted<B: Bytes, O: Out>(
    piece: &Piece<'_>,
    source: &mut B,
    out: &mut O,
) -> Result<u64, PieceFault>
    requires len { B.size source.old ≡ piece.now.kept.source_len }
    requires told { IsChecked (B.content source.old) (Ok piece.now.kept) }
    requires room { HasRoom (O.room out.old) (part_len piece.now) }
    ensures put { OnOk result (PutsPart piece.now (B.content source.old) (O.put_so_far out.old)
        (O.put_so_far out.new)) }
    ensures room { OnOk result (Fell (O.room out.old) (O.room out.new) (part_len piece.now)) }
    ensures out_same { O.lent out.new ≡ O.lent out.old }
    ensures same { B.lent source.new ≡ B.lent source.old }
    ensures content { B.content source.new ≡ B.content source.old }
{
    let mut counted = CountedOut { out, puts: 0 };
    match piece.write(source, &mut counted) {
        Ok(()) => Ok(counted.puts),
        Err(fault) => Err(fault),
    }
}

/// The next piece of a file, written.
fn next_piece(
    alloc: Global,
    file: &[u8],
    pieces: &mut Pieces<'_>,
) -> Result<Option<MemoryOut>, Fail>
    requires len { length file.now ≡ pieces.old.kept.source_len }
    requires told { checked file.now ≡ Ok pieces.old.kept }
    ensures kept { pieces.new.kept ≡ pieces.old.kept }
{
    let Some(piece) = pieces.next() else {
        return Ok(None);
    };
    let mut source = MemoryBytes::new(file);
    let mut out = MemoryOut::new(alloc, piece.size() as usize).map_err(|_| "no memory")?;
    write_counted(&piece, &mut source, &mut out).map_err(|_| "a fault")?;
    Ok(Some(out))
}

/// Tries that a file's pieces have these sizes, and are images as long as the whole.
fn check_sizes(
    rt: &impl Abort,
    alloc: Global,
    file: &[u8],
    max: u32,
    sizes: &[u32],
) -> Result<(), Fail> {
    assert!(rt; max >= 131_072);
    let index = check(alloc, &mut MemoryBytes::new(file))?;
    let mut pieces = index.pieces(max);
    for size in sizes {
        let Some(out) = next_piece(alloc, file, &mut pieces)? else {
            return Err("a piece is missing".into());
        };
        assert_eq!(rt; out.bytes().len(), *size as usize, "at most {max}");
        let piece = check(alloc, &mut MemoryBytes::new(out.bytes()))?;
        assert_eq!(rt; piece.len(), index.len());
    }
    assert!(rt; pieces.next().is_none());
    Ok(())
}

#[test]
fn splits_raw_files(rt: HostRuntime) -> Result<(), Fail> {
    let rows = [
        (163_840, &[127_028, 36_916][..]),
        (131_072, &[131_072]),
        (131_073, &[127_028, 8244]),
        (4097, &[8192]),
    ];
    for (len, sizes) in rows {
        let mut file = Vec::new(rt.alloc());
        file.resize(len, 0x11)?;
        check_sizes(&rt, rt.alloc(), file.as_slice(), 131_072, sizes)?;
    }
    Ok(())
}

#[test]
fn splits_sparse_files(rt: HostRuntime) -> Result<(), Fail> {
    let row = sparse_row(rt.alloc())?;
    check_sizes(&rt, rt.alloc(), row.as_slice(), 131_072, &[4164])?;
    // a raw chunk that straddles a piece's end
    let chunks = [(0xCAC2, 2, 4), (0xCAC1, 40, 163_840), (0xCAC3, 3, 0)];
    let file = sparse_file(rt.alloc(), 4096, 45, &chunks)?;
    check_sizes(
        &rt,
        rt.alloc(),
        file.as_slice(),
        131_072,
        &[127_044, 36_928],
    )?;
    // chunks of no blocks
    let chunks = [(0xCAC1, 0, 0), (0xCAC1, 40, 163_840), (0xCAC2, 0, 4)];
    let file = sparse_file(rt.alloc(), 4096, 40, &chunks)?;
    check_sizes(
        &rt,
        rt.alloc(),
        file.as_slice(),
        131_072,
        &[127_028, 36_916],
    )?;
    // a fill, or skips, that begin the next piece
    let chunks = [
        (0xCAC1, 256, 131_072),
        (0xCAC2, 1, 4),
        (0xCAC3, 2, 0),
        (0xCAC2, 3, 4),
    ];
    let file = sparse_file(rt.alloc(), 512, 262, &chunks)?;
    check_sizes(&rt, rt.alloc(), file.as_slice(), 131_139, &[131_124, 84])?;
    check_sizes(&rt, rt.alloc(), file.as_slice(), 131_151, &[131_140, 68])?;
    check_sizes(&rt, rt.alloc(), file.as_slice(), 131_156, &[131_156])?;
    // the largest blocks
    let file = sparse_file(rt.alloc(), 65_536, 4, &[(0xCAC1, 4, 262_144)])?;
    check_sizes(
        &rt,
        rt.alloc(),
        file.as_slice(),
        131_072,
        &[65_588, 65_600, 65_600, 65_588],
    )
}

#[test]
fn keeps_a_chunk_in_24_bytes(rt: HostRuntime) {
    assert_eq!(rt; size_of::<Chunk>(), 24);
}

/// The most chunks that a file may have: one fill each, 8,189 in the first piece and 8,188 in the next
/// ones, and 1,063 in the last.
#[test]
fn splits_a_million_chunks(rt: HostRuntime) -> Result<(), Fail> {
    let mut chunks = Vec::new(rt.alloc());
    chunks.resize(1_000_000, (0xCAC2, 1, 4))?;
    let file = sparse_file(rt.alloc(), 512, 1_000_000, chunks.as_slice())?;
    let mut sizes = Vec::new(rt.alloc());
    sizes.push(131_064)?;
    sizes.resize(122, 131_060)?;
    sizes.push(17_048)?;
    check_sizes(&rt, rt.alloc(), file.as_slice(), 131_072, sizes.as_slice())
}

#[test]
fn writes_pieces(rt: HostRuntime) -> Result<(), Fail> {
    let chunks = [
        (0xCAC1, 256, 131_072),
        (0xCAC2, 1, 4),
        (0xCAC3, 2, 0),
        (0xCAC2, 3, 4),
    ];
    let file = sparse_file(rt.alloc(), 512, 262, &chunks)?;
    let index = check(rt.alloc(), &mut MemoryBytes::new(file.as_slice()))?;
    let mut pieces = index.pieces(131_151);
    let Some(first) = next_piece(rt.alloc(), file.as_slice(), &mut pieces)? else {
        return Err("no first piece".into());
    };
    assert!(rt; first.bytes().len() == 131_140);
    assert_eq!(rt;
        &first.bytes()[131_112..],
        b"\xc2\xca\0\0\x01\0\0\0\x10\0\0\x003333\xc3\xca\0\0\x05\0\0\0\x0c\0\0\0".as_slice()
    );
    let Some(second) = next_piece(rt.alloc(), file.as_slice(), &mut pieces)? else {
        return Err("no second piece".into());
    };
    let want =
        b"\x3a\xff\x26\xed\x01\0\0\0\x1c\0\x0c\0\0\x02\0\0\x06\x01\0\0\x03\0\0\0\0\0\0\0\xc3\xca\0\0\x01\x01\0\0\x0c\0\0\0\xc3\xca\0\0\x02\0\0\0\x0c\0\0\0\xc2\xca\0\0\x03\0\0\0\x10\0\0\x003333";
    assert_eq!(rt; second.bytes(), want.as_slice());
    Ok(())
}

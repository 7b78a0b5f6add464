ghost use Rattle.std.specs.Prelude.{◌≡◌, ◌∷◌, List, ℕ, IfOk, map};
ghost use Rattle.dev_model.specs.declared.cells.Cell.TheVariants.{Byte};
ghost use Rattle.dev_model.specs.Images.{over, raw_cells};

use crate::cells::{ByteList, Cell, Cells};
use fb_frame::items::Items;
use fb_frame::memory::Memory;
use std::alloc::Global;

/// What the first cell, if there is one, leaves in the place of a byte, and the other cells.
fn over_one(cells: &[Cell], old: u8) -> (u8, &[Cell])
    ensures { (rest : List ℕ) → over cells.now (old ∷ rest) ≡ result.0 ∷ over result.1.now rest }
{
    match cells {
        [] => (old, cells),
        [Cell::Byte(b), more @ ..] => (*b, more),
        [Cell::Skip, more @ ..] => (old, more),
    }
}

/// The bytes after an image is put over them.
#[tactic(auto, using(crate::proofs::OverLemmas::over_turns))]
pub fn over(alloc: Global, cells: &[Cell], old: &[u8]) -> Result<ByteList, Memory>
    ensures { IfOk result (λ bytes. bytes ≡ over cells.now old.now) }
{
    let mut bytes = Vec::new(alloc);
    let mut rest = cells;
    for o in old {
        let (b, more) = over_one(rest, *o);
        bytes.push(b).map_err(|_| Memory)?;
        rest = more;
    }
    Ok(Items::from_vec(bytes))
}

/// Each byte as a cell.
pub fn byte_cells(alloc: Global, bytes: &[u8]) -> Result<Cells, Memory>
    ensures { IfOk result (λ cells. cells ≡ map Byte bytes.now) }
{
    let mut cells = Vec::new(alloc);
    for b in bytes {
        cells.push(Cell::Byte(*b)).map_err(|_| Memory)?;
    }
    Ok(Items::from_vec(cells))
}

/// The cells of a file that isn't sparse, None where its padded length is 2^44 or more.
pub fn raw_cells(alloc: Global, file: &[u8]) -> Result<Option<Cells>, Memory>
    ensures { IfOk result (λ cells. cells ≡ raw_cells file.now) }
{
    if file.len() > 0xFFF_FFFF_F000 {
        return Ok(None);
    }
    let end = file.len().next_multiple_of(4096);
    let mut padded = Vec::from_slice(alloc, file).map_err(|_| Memory)?;
    padded.resize(end, 0).map_err(|_| Memory)?;
    let cells = byte_cells(alloc, padded.as_slice())?;
    Ok(Some(cells))
}

ghost use Rattle.std.specs.Prelude.{◌≡◌, IfOk};
ghost use Rattle.wire_model.specs.TableFile.{tables_of};

use fb_frame::memory::Memory;
use fb_frame::tables::Tables;
use std::alloc::Global;
use super_meta::held::tables_of_image;

/// The tables of a downloaded file: those of the image of an empty super that has no extent and at most
/// 131,072 bytes, None of any other file (liblp, super_empty.img).
pub fn tables_of(alloc: Global, file: &[u8]) -> Result<Option<Tables>, Memory>
    ensures { IfOk result (λ tables. tables ≡ tables_of file.now) }
{
    tables_of_image(alloc, file)
}

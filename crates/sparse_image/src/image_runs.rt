ghost use Rattle.std.specs.Prelude.{◌≡◌, IfOk, IfErr, OnErr, None, Err};
ghost use Rattle.dev_model.specs.Images.{image};
ghost use Rattle.sparse_image.specs.Runs.{IsImage};
ghost use Rattle.sparse_image.specs.Walks.{checked};

use crate::errors::{SparseError, SparseKind};
use crate::runs::Runs;
use crate::walk::is_sparse;

/// The runs of an image file, or the first thing that is wrong with it.
pub fn runs(file: &[u8]) -> Result<Runs<'_>, SparseError>
    ensures image { IfOk result (λ runs. IsImage (image file.now) runs) }
    ensures flaw { IfErr result (λ flaw. checked file.now ≡ Err flaw) }
    ensures none { OnErr result (image file.now ≡ None) }
{
    if file.is_empty() {
        return Err(SparseError::new(SparseKind::Empty, 0));
    }
    if is_sparse(file) {
        let runs = Runs::sparse(file)?;
        return Ok(runs);
    }
    let runs = Runs::raw(file)?;
    Ok(runs)
}

ghost use Rattle.std.specs.Prelude.{◌≡◌, IfOk, replicate};

use fb_frame::memory::Memory;
use std::alloc::Global;

/// A value, as often as is said.
pub(crate) fn filled<T: Copy>(alloc: Global, value: T, count: u32) -> Result<Vec<T>, Memory>
    ensures { IfOk result (λ list. list.items ≡ replicate count value) }
{
    let mut list = Vec::new(alloc);
    list.resize(count as usize, value).map_err(|_| Memory)?;
    Ok(list)
}

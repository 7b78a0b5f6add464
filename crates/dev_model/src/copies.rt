ghost use Rattle.std.specs.Prelude.{◌≡◌, IfOk};

use crate::cells::ByteList;
use crate::device::{Dev, Logical, Physical, Variable};
use fb_frame::items::Items;
use fb_frame::memory::Memory;
use std::alloc::Global;

/// The same bytes once more.
pub fn copy_bytes(alloc: Global, bytes: &[u8]) -> Result<ByteList, Memory>
    ensures { IfOk result (λ copy. copy ≡ bytes.now) }
{
    let copy = Vec::from_slice(alloc, bytes).map_err(|_| Memory)?;
    Ok(Items::from_vec(copy))
}

/// The same variables once more.
pub fn copy_variables(alloc: Global, vars: &[Variable]) -> Result<Items<Variable>, Memory>
    ensures { IfOk result (λ copy. copy ≡ vars.now) }
{
    let mut copied = Items::new(alloc);
    for var in vars {
        let text = copy_bytes(alloc, var.text.as_slice())?;
        let name = var.name;
        copied.push(Variable { name, text }).map_err(|_| Memory)?;
    }
    Ok(copied)
}

/// The same physical partitions once more.
pub fn copy_physical(alloc: Global, parts: &[Physical]) -> Result<Items<Physical>, Memory>
    ensures { IfOk result (λ copy. copy ≡ parts.now) }
{
    let mut copied = Items::new(alloc);
    for part in parts {
        let bytes = copy_bytes(alloc, part.bytes.as_slice())?;
        let name = part.name;
        copied.push(Physical { name, bytes }).map_err(|_| Memory)?;
    }
    Ok(copied)
}

/// The same logical partitions once more.
pub fn copy_logical(alloc: Global, parts: &[Logical]) -> Result<Items<Logical>, Memory>
    ensures { IfOk result (λ copy. copy ≡ parts.now) }
{
    let mut copied = Items::new(alloc);
    for part in parts {
        let copy = copy_entry(alloc, part)?;
        copied.push(copy).map_err(|_| Memory)?;
    }
    Ok(copied)
}

/// The same logical partition once more.
pub fn copy_entry(alloc: Global, part: &Logical) -> Result<Logical, Memory>
    ensures { IfOk result (λ copy. copy ≡ part.now) }
{
    let bytes = copy_bytes(alloc, part.bytes.as_slice())?;
    Ok(Logical {
        name: part.name,
        attributes: part.attributes,
        group: part.group,
        bytes,
    })
}

/// The same device once more.
pub fn copy_dev(alloc: Global, dev: &Dev) -> Result<Dev, Memory>
    ensures { IfOk result (λ copy. copy ≡ dev.now) }
{
    let product = copy_bytes(alloc, dev.product.as_slice())?;
    let serial = copy_bytes(alloc, dev.serial.as_slice())?;
    let vars = copy_variables(alloc, dev.vars.as_slice())?;
    let physical = copy_physical(alloc, dev.physical.as_slice())?;
    let groups = dev.groups.copy(alloc).map_err(|_| Memory)?;
    let logical = copy_logical(alloc, dev.logical.as_slice())?;
    Ok(Dev {
        product,
        serial,
        vars,
        slots: dev.slots,
        active: dev.active,
        flags: dev.flags,
        locked: dev.locked,
        mode: dev.mode,
        max: dev.max,
        physical,
        super_name: dev.super_name,
        geometry: dev.geometry,
        groups,
        logical,
        unit: dev.unit,
        units: dev.units,
        super_size: dev.super_size,
        table_minor: dev.table_minor,
        table_flags: dev.table_flags,
    })
}

ghost use Rattle.std.specs.Prelude.{◌≡◌, map, IfOk};
ghost use Rattle.std.specs.List.{list_any};
ghost use Rattle.flash_plan.specs.Plans.{listed_in};
ghost use Rattle.flash_plan.specs.Products.{is_update};

use crate::product::EmptyImage;
use fb_frame::items::Items;
use fb_frame::memory::Memory;
use fb_frame::name::Name;
use fb_frame::tables::TablePartition;
use product_info::task::{Action, Task};
use std::alloc::Global;
use super_meta::held::tables_of_image;

/// Whether some task updates super.
pub fn updates_super(tasks: &[Task]) -> bool
    ensures { result ≡ list_any is_update tasks.now }
{
    tasks
        .iter()
        .any(|task| matches!(task.action, Action::UpdateSuper))
}

fn names(alloc: Global, partitions: &[TablePartition]) -> Result<Items<Name>, Memory>
    ensures { IfOk result (λ names. names ≡ map (λ p. p.name) partitions.now) }
{
    let mut names = Items::new(alloc);
    for partition in partitions {
        names.push(partition.name).map_err(|_| Memory)?;
    }
    Ok(names)
}

/// The partitions that a product's tables list, where a task updates super.
pub fn listed_in(
    alloc: Global,
    tasks: &[Task],
    empty: &Option<EmptyImage>,
) -> Result<Items<Name>, Memory>
    ensures { IfOk result (λ names. names ≡ listed_in tasks.now empty.now) }
{
    if !updates_super(tasks) {
        return Ok(Items::new(alloc));
    }
    let Some(empty) = empty else {
        return Ok(Items::new(alloc));
    };
    match tables_of_image(alloc, empty.as_slice())? {
        Some(tables) => names(alloc, tables.partitions.as_slice()),
        None => Ok(Items::new(alloc)),
    }
}

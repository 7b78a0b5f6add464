ghost use Rattle.std.specs.Prelude.{◌≡◌, ◌≤◌, ◌^◌, ◌&&◌, false, List, [], map, length, slice_index_or, is_none, IfOk, Ok, Err, if◌then◌else◌};
ghost use Rattle.std.specs.List.{All};
ghost use Rattle.std.specs.Result.{IsErrOf};
ghost use Rattle.flash_plan.specs.Facts.{facts_in};
ghost use Rattle.flash_plan.specs.Moves.{aimed, next_size, updating, booting, move_of, moves_from};
ghost use Rattle.flash_plan.specs.Plans.{image_size};
ghost use Rattle.flash_plan.specs.Planning.{work_in, past_of, IsShort, aim_of};

use crate::answers::Answers;
use crate::plan::{PlanError, PlanKind};
use crate::plan_move::{Move, Past, leaves};
use crate::plan_targets::Candidates;
use crate::product::Product;
use fb_frame::items::Items;
use fb_frame::name::Name;
use fb_frame::slot::Slot;
use fb_message::command::BootTarget;
use product_info::task::{Action, Task};
use sparse_image::index::Index;
use std::alloc::Global;

/// What tasks are decided by: the product, the partitions that its table lists, a device's answers, and the
/// slot that is chosen.
#[derive(Clone, Copy)]
pub struct Setting<'a> {
    pub product: &'a Product,
    pub listed: &'a [Name],
    pub answers: &'a Answers,
    pub slot: Option<Slot>,
}

/// How many bytes the image at a place has, 0 where there is none.
fn image_len(images: &[Index], place: usize) -> u64
    ensures size { result ≡ slice_index_or (map image_size images.now) place 0 }
    ensures short { result ≤ 2 ^ 44 }
{
    match images.get(place) {
        Some(image) => image.len(),
        None => 0,
    }
}

/// The update of super, which stands before all else that is logical.
fn update(past: &Past, name: Option<Name>) -> Result<Move, PlanKind>
    ensures update { (before : List Move) → past.now ≡ past_of before → result ≡ updating before name }
    ensures short { IfOk result IsShort }
{
    let Some(name) = name else {
        return Err(PlanKind::NoSuper);
    };
    if past.logical {
        return Err(PlanKind::UpdateSuper);
    }
    Ok(Move::Updates(name))
}

/// The reboot, by which the device leaves fastboot only at the end.
fn boot(later: &[Task], what: BootTarget) -> Result<Move, PlanKind>
    ensures { result ≡ booting later.now what }
{
    if leaves(what) && !later.is_empty() {
        return Err(PlanKind::Reboot);
    }
    Ok(Move::Boots(what))
}

impl<'a> Setting<'a> {
    /// The partition that a name stands for, and whether it is logical.
    fn target(&self, other: bool, name: &Name) -> Option<(Name, bool)>
        ensures { result ≡ aim_of self.now other name.now }
    {
        Candidates::new(self.slot, other, name).target(self.answers.parts.as_slice(), self.listed)
    }

    /// The flash of the next image.
    fn flash(&self, past: &Past, other: bool, name: &Name) -> Result<Move, PlanKind>
        ensures flash { (before : List Move) → past.now ≡ past_of before
            → result ≡ (if other && is_none self.now.slot then Err PlanKind.NoSlot
            else aimed (λ part logical. Move.Flashes part logical (next_size (work_in self.now) before))
            (aim_of self.now other name.now)) }
        ensures short { IfOk result IsShort }
    {
        if other && self.slot.is_none() {
            return Err(PlanKind::NoSlot);
        }
        let Some((name, logical)) = self.target(other, name) else {
            return Err(PlanKind::NoPartition);
        };
        let size = image_len(self.product.images.as_slice(), past.flashes as usize);
        Ok(Move::Flashes {
            name,
            logical,
            size,
        })
    }

    /// The erasure of a partition.
    fn erase(&self, name: &Name) -> Result<Move, PlanKind>
        ensures { result ≡ aimed Move.Erases (aim_of self.now false name.now) }
    {
        match self.target(false, name) {
            Some((name, logical)) => Ok(Move::Erases { name, logical }),
            None => Err(PlanKind::NoPartition),
        }
    }

    /// The task between those before it and the later ones.
    fn move_of(&self, past: &Past, later: &[Task], action: &Action) -> Result<Move, PlanKind>
        ensures task { (before : List Move) → past.now ≡ past_of before
            → result ≡ move_of (work_in self.now) (facts_in self.now.answers.now) self.now.slot
            before later.now action.now }
        ensures short { IfOk result IsShort }
    {
        match action {
            Action::Flash { name, other, .. } => self.flash(past, *other, name),
            Action::Erase(name) => self.erase(name),
            Action::UpdateSuper => update(past, self.answers.super_name),
            Action::Reboot(what) => boot(later, *what),
        }
    }

    /// The tasks with their partitions found, or the first line of which no plan is made.
    pub(crate) fn moves(&self, alloc: Global) -> Result<Items<Move>, PlanError>
        requires { length self.now.product.now.tasks ≤ 256 }
        ensures moves { IfOk result (λ moves. moves_from (work_in self.now)
            (facts_in self.now.answers.now) self.now.slot [] self.now.product.now.tasks ≡ Ok moves) }
        ensures few { IfOk result (λ moves. length moves ≤ 256) }
        ensures short { IfOk result (λ moves. All IsShort moves) }
        ensures bad { (line : _) (kind : _) → IsErrOf result (PlanError.Bad line kind)
            → moves_from (work_in self.now) (facts_in self.now.answers.now) self.now.slot []
            self.now.product.now.tasks ≡ Err (line, kind) }
    {
        let tasks = self.product.tasks.as_slice();
        let mut moves = Items::new(alloc);
        let mut past = Past::new();
        for (i, task) in tasks.iter().enumerate() {
            let act = match self.move_of(&past, &tasks[i + 1..], &task.action) {
                Ok(act) => act,
                Err(kind) => {
                    return Err(PlanError::Bad {
                        line: task.line,
                        kind,
                    });
                }
            };
            let Ok(()) = moves.push(act) else {
                return Err(PlanError::Memory);
            };
            past = past.after(&act);
        }
        Ok(moves)
    }
}

ghost use Rattle.std.specs.Prelude.{◌≡◌, ◌≤◌, length, IfOk, Ok, Err};
ghost use Rattle.std.specs.Result.{IsErrOf};
ghost use Rattle.dev_model.specs.declared.device.Dev.{Dev};
ghost use Rattle.flash_plan.specs.Orders.{orders};
ghost use Rattle.flash_plan.specs.Plans.{work_of};
ghost use Rattle.flash_plan.specs.Facts.{facts_in, facts_of};
ghost use Rattle.flash_plan.specs.Questions.{AreAnswers};

use crate::answers::Answers;
use crate::blocks::ordered;
use crate::options::Options;
use crate::plan_listed::listed_in;
use crate::plan_moves::Setting;
use crate::product::Product;
use fb_frame::items::Items;
use fb_frame::name::Name;
use fb_frame::slot::Slot;
use fb_message::command::BootTarget;
use std::alloc::Global;

/// One step of a plan, without the bytes that it brings. The number in `Put` is the place of the flash
/// task among the product's images.
#[derive(Clone, Copy, Debug)]
pub enum Order {
    Active(Slot),
    Resize(Name, u64),
    Put(Name, u32),
    Wipe(Name),
    Table(Name, bool),
    Boot(BootTarget),
}

/// The steps of an installation.
pub type Plan = Items<Order>;

/// Why no plan is made at a line of fastboot-info.txt.
#[derive(Clone, Copy, Debug, PartialEq, Eq)]
pub enum PlanKind {
    /// The device has no partition that the task is for.
    NoPartition,
    /// The device has no slots.
    NoSlot,
    /// The device leaves fastboot before the last task.
    Reboot,
    /// Super is updated again, or after a logical partition was written.
    UpdateSuper,
    /// The device has no super.
    NoSuper,
}

/// Why no plan is made.
#[derive(Debug, Drop)]
pub enum PlanError {
    /// There was no memory.
    Memory,
    /// No plan is made of this line; 0 stands before all lines.
    Bad { line: u32, kind: PlanKind },
}

/// The plan of a product for a device that gave these answers: the step for its slot, the steps of each task
/// and the reboot at the end, or the first line of which no plan is made, where 0 stands for the choice of the
/// slot. The partitions are found by the answers and by the tables that the product brings (fastboot README,
/// flashall).
pub fn plan(
    alloc: Global,
    product: &Product,
    options: &Options,
    answers: &Answers,
) -> Result<Plan, PlanError>
    requires { length product.now.tasks ≤ 256 }
    ensures plan { IfOk result
        (λ plan. orders (work_of product.now) options.now (facts_in answers.now) ≡ Ok plan) }
    ensures bad { (line : _) (kind : _) → IsErrOf result (PlanError.Bad line kind)
        → orders (work_of product.now) options.now (facts_in answers.now) ≡ Err (line, kind) }
    ensures device { (dev : Dev) → AreAnswers (work_of product.now) options.now.slot dev answers.now
        → IfOk result (λ plan. orders (work_of product.now) options.now (facts_of dev) ≡ Ok plan) }
    ensures device_bad { (dev : Dev) (line : _) (kind : _)
        → AreAnswers (work_of product.now) options.now.slot dev answers.now
        → IsErrOf result (PlanError.Bad line kind)
        → orders (work_of product.now) options.now (facts_of dev) ≡ Err (line, kind) }
{
    if options.slot.is_slotless(answers.current) {
        return Err(PlanError::Bad {
            line: 0,
            kind: PlanKind::NoSlot,
        });
    }
    let Ok(listed) = listed_in(alloc, product.tasks.as_slice(), &product.empty) else {
        return Err(PlanError::Memory);
    };
    let slot = options.slot.slot(answers.current);
    let setting = Setting {
        product,
        listed: listed.as_slice(),
        answers,
        slot,
    };
    let moves = match setting.moves(alloc) {
        Ok(moves) => moves,
        Err(error) => return Err(error),
    };
    let Ok(plan) = ordered(alloc, options, slot, moves.as_slice()) else {
        return Err(PlanError::Memory);
    };
    Ok(plan)
}

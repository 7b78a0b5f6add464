ghost use Rattle.std.specs.Prelude.{◌≡◌, ◌≤◌, ◌++◌, ◌∷◌, [], List, map, length, bytes_eq, filter, not, OnOk, IfOk};
ghost use Rattle.std.specs.List.{All, list_any};
ghost use Rattle.flash_plan.specs.Orders.{logical_target, logical_targets, rises, empties, fits, own, block, blocks, ends_left, ordered};
ghost use Rattle.flash_plan.specs.Planning.{past_of, IsShort};

use crate::options::Options;
use crate::plan::{Order, Plan};
use crate::plan_move::{Move, Past};
use dev_model::sizes::round_up;
use fb_frame::items::Items;
use fb_frame::name::Name;
use fb_frame::slot::Slot;
use fb_message::command::BootTarget;
use std::alloc::{AllocError, Global};

/// Whether a name is kept already.
fn is_kept(names: &[Name], name: &Name) -> bool
    ensures { result ≡ list_any (λ kept. bytes_eq name.now kept) names.now }
{
    names.iter().any(|kept| *name == *kept)
}

/// Keeps the logical partition that a task flashes, unless it is kept already.
fn keep_target(names: &mut Items<Name>, act: &Move) -> Result<(), AllocError>
    ensures { OnOk result (names.new ≡ names.old
        ++ filter (λ name. not (list_any (λ kept. bytes_eq name kept) names.old)) (logical_target act.now)) }
{
    let Some(name) = act.logical_target() else {
        return Ok(());
    };
    if is_kept(names.as_slice(), &name) {
        return Ok(());
    }
    names.push(name)?;
    Ok(())
}

/// The logical partitions that are flashed, each once, in the order of their first flash.
fn logical_targets(alloc: Global, moves: &[Move]) -> Result<Items<Name>, AllocError>
    ensures { IfOk result (λ names. names ≡ logical_targets moves.now) }
{
    let mut names = Items::new(alloc);
    for act in moves {
        keep_target(&mut names, act)?;
    }
    Ok(names)
}

/// The reboot to userspace before a logical task, where userspace doesn't run.
fn push_rise(plan: &mut Plan, past: &Past, act: &Move) -> Result<(), AllocError>
    ensures { OnOk result ((before : List Move) → past.now ≡ past_of before
        → plan.new ≡ plan.old ++ rises before act.now) }
{
    if act.is_logical() && !past.userspace {
        return plan.push(Order::Boot(BootTarget::Fastboot));
    }
    Ok(())
}

/// Each partition is emptied.
fn push_emptied(plan: &mut Plan, names: &[Name]) -> Result<(), AllocError>
    ensures { OnOk result (plan.new ≡ plan.old ++ map (λ name. Order.Resize name 0) names.now) }
{
    for name in names {
        plan.push(Order::Resize(*name, 0))?;
    }
    Ok(())
}

/// Before the first flash of a logical partition each of these is emptied.
fn push_empties(
    plan: &mut Plan,
    past: &Past,
    act: &Move,
    targets: &[Name],
) -> Result<(), AllocError>
    ensures { OnOk result ((before later : List Move) → past.now ≡ past_of before
        → targets.now ≡ logical_targets (before ++ act.now ∷ later)
        → plan.new ≡ plan.old ++ empties before act.now later) }
{
    if act.is_logical_flash() && !past.emptied {
        return push_emptied(plan, targets);
    }
    Ok(())
}

/// A logical partition is made as long as its image.
fn push_fit(plan: &mut Plan, act: &Move) -> Result<(), AllocError>
    requires { IsShort act.now }
    ensures { OnOk result (plan.new ≡ plan.old ++ fits act.now) }
{
    match act {
        Move::Flashes {
            name,
            logical: true,
            size,
        } => plan.push(Order::Resize(*name, round_up(*size) as u64)),
        _ => Ok(()),
    }
}

/// The task's own step.
fn own(wipe: bool, past: &Past, act: &Move) -> Order
    ensures { (before : List Move) → past.now ≡ past_of before → result ≡ own wipe before act.now }
{
    match act {
        Move::Flashes { name, .. } => Order::Put(*name, past.flashes),
        Move::Erases { name, .. } => Order::Wipe(*name),
        Move::Updates(name) => Order::Table(*name, wipe),
        Move::Boots(what) => Order::Boot(*what),
    }
}

/// The block of a task, where these are all logical partitions that are flashed.
fn push_block(
    plan: &mut Plan,
    wipe: bool,
    past: &Past,
    act: &Move,
    targets: &[Name],
) -> Result<(), AllocError>
    requires { IsShort act.now }
    ensures { OnOk result ((before later : List Move) → past.now ≡ past_of before
        → targets.now ≡ logical_targets (before ++ act.now ∷ later)
        → plan.new ≡ plan.old ++ block wipe before act.now later) }
{
    push_rise(plan, past, act)?;
    push_empties(plan, past, act, targets)?;
    push_fit(plan, act)?;
    plan.push(own(wipe, past, act))
}

/// The blocks of all tasks.
fn push_blocks(alloc: Global, plan: &mut Plan, wipe: bool, moves: &[Move]) -> Result<(), AllocError>
    requires few { length moves.now ≤ 256 }
    requires short { All IsShort moves.now }
    ensures { OnOk result (plan.new ≡ plan.old ++ blocks wipe [] moves.now) }
{
    let targets = logical_targets(alloc, moves)?;
    let mut past = Past::new();
    for act in moves {
        push_block(plan, wipe, &past, act, targets.as_slice())?;
        past = past.after(act);
    }
    Ok(())
}

/// Whether the device leaves fastboot by the last task.
fn ends_left(moves: &[Move]) -> bool
    ensures { result ≡ ends_left moves.now }
{
    match moves.last() {
        Some(act) => act.is_left(),
        None => false,
    }
}

/// The slot, the blocks, and the reboot at the end.
pub(crate) fn ordered(
    alloc: Global,
    options: &Options,
    slot: Option<Slot>,
    moves: &[Move],
) -> Result<Plan, AllocError>
    requires few { length moves.now ≤ 256 }
    requires short { All IsShort moves.now }
    ensures { IfOk result (λ plan. plan ≡ ordered options.now slot moves.now) }
{
    let mut plan = Items::new(alloc);
    if let Some(slot) = slot {
        plan.push(Order::Active(slot))?;
    }
    push_blocks(alloc, &mut plan, options.wipe, moves)?;
    if !options.skip_reboot && !ends_left(moves) {
        plan.push(Order::Boot(BootTarget::System))?;
    }
    Ok(plan)
}

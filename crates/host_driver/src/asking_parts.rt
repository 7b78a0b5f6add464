//! The partitions that a device has, of those that tasks may be for.
ghost use Rattle.std.specs.Prelude.{◌≡◌, ◌≤◌, ◌+◌, ◌*◌, [], length, Some, option_to_list, IfOk, IfErr};
ghost use Rattle.std.specs.List.{AllByRecursion};
ghost use Rattle.fb_frame.specs.Causes.{Rose};
ghost use Rattle.wire_told.specs.Answered.{Sound};
ghost use Rattle.fb_link.specs.Seen.{seen};
ghost use Rattle.flash_plan.specs.Facts.{kind_of};
ghost use Rattle.flash_plan.specs.Planning.{names_of};
ghost use Rattle.flash_plan.specs.Targets.{candidates, probed};
ghost use Rattle.host_driver.specs.Finding.{kind_questions, IsSought, Finds, Tell, task_probes, tasks_probes};
ghost use Rattle.host_driver.specs.Questioning.{IsLearned, IsUnlearned};
ghost use Rattle.host_driver.specs.Stepping.{Serving};

use crate::drive::DriveError;
use crate::questions::ask_kind;
use fb_frame::items::Items;
use fb_frame::name::Name;
use fb_frame::sink::Sink;
use fb_frame::slot::Slot;
use fb_link::port::Port;
use fb_link::states::{Lost, Ready};
use flash_plan::answers::{Part, Parts};
use flash_plan::plan_targets::{Candidates, is_among};
use product_info::task::{Action, Task};
use std::alloc::Global;

/// Asks for the kind of a partition, keeps it where the device has the partition, and answers whether the name
/// is found: the device has it, or the product's table lists it.
fn ask_name<P: Port, S: Sink>(
    ready: Ready<P>,
    name: &Name,
    listed: &[Name],
    parts: &mut Parts,
    shown: &mut S,
) -> Result<(Ready<P>, bool), (Lost<P>, DriveError)>
    requires sound { Sound (P.told ready).peer }
    requires serving { Serving 4104 (P.told ready).peer }
    ensures same { IfOk result (λ r. P.lent r.0 ≡ P.lent ready) }
    ensures same_lost { IfErr result (λ e. P.lent e.0 ≡ P.lent ready) }
    ensures learned { IfOk result (λ r. IsLearned 4104
        (λ dev. kind_questions (option_to_list (Some name.now)))
        (λ dev. IsSought listed.now (Some name.now) r.1 dev
        (λ names dev. Finds names parts.old parts.new dev))
        (seen (P.told ready) (S.text shown.old)) (seen (P.told r.0) (S.text shown.new))) }
    ensures unlearned { IfErr result (λ e. IsUnlearned
        (λ dev. kind_questions (option_to_list (Some name.now)))
        (seen (P.told ready) (S.text shown.old)) (seen (P.told e.0) (S.text shown.new)) e.1) }
    ensures shown_later { S.faults shown.old ≤ S.faults shown.new }
    ensures output { IfErr result (λ e.
        e.1 ≡ DriveError.Output → Rose (S.faults shown.old) (S.faults shown.new)) }
{
    let (ready, kind) = match ask_kind(ready, name, shown) {
        Ok(answer) => answer,
        Err(stop) => return Err(stop),
    };
    match kind {
        None => Ok((ready, is_among(listed, name))),
        Some(logical) => match parts.push(Part {
            name: *name,
            logical,
        }) {
            Ok(()) => Ok((ready, true)),
            Err(_) => Err((ready.hang_up(), DriveError::Memory)),
        },
    }
}

/// The same of a candidate, of which nothing is asked where there is none.
fn ask_candidate<P: Port, S: Sink>(
    ready: Ready<P>,
    name: Option<Name>,
    listed: &[Name],
    parts: &mut Parts,
    shown: &mut S,
) -> Result<(Ready<P>, bool), (Lost<P>, DriveError)>
    requires sound { Sound (P.told ready).peer }
    requires serving { Serving 4104 (P.told ready).peer }
    ensures same { IfOk result (λ r. P.lent r.0 ≡ P.lent ready) }
    ensures same_lost { IfErr result (λ e. P.lent e.0 ≡ P.lent ready) }
    ensures learned { IfOk result (λ r. IsLearned 4104 (λ dev. kind_questions (option_to_list name))
        (λ dev. IsSought listed.now name r.1 dev
        (λ names dev. Finds names parts.old parts.new dev))
        (seen (P.told ready) (S.text shown.old)) (seen (P.told r.0) (S.text shown.new))) }
    ensures unlearned { IfErr result (λ e. IsUnlearned (λ dev. kind_questions (option_to_list name))
        (seen (P.told ready) (S.text shown.old)) (seen (P.told e.0) (S.text shown.new)) e.1) }
    ensures shown_later { S.faults shown.old ≤ S.faults shown.new }
    ensures output { IfErr result (λ e.
        e.1 ≡ DriveError.Output → Rose (S.faults shown.old) (S.faults shown.new)) }
{
    match name {
        Some(name) => match ask_name(ready, &name, listed, parts, shown) {
            Ok((ready, found)) => Ok((ready, found)),
            Err(stop) => Err(stop),
        },
        None => Ok((ready, false)),
    }
}

/// Asks for the candidates in their order, up to the first that is found.
fn ask_candidates<P: Port, S: Sink>(
    ready: Ready<P>,
    names: &Candidates,
    listed: &[Name],
    parts: &mut Parts,
    shown: &mut S,
) -> Result<Ready<P>, (Lost<P>, DriveError)>
    requires sound { Sound (P.told ready).peer }
    requires serving { Serving 8208 (P.told ready).peer }
    ensures same { IfOk result (λ r. P.lent r ≡ P.lent ready) }
    ensures same_lost { IfErr result (λ e. P.lent e.0 ≡ P.lent ready) }
    ensures learned { IfOk result (λ r. IsLearned 8208 (λ dev.
        kind_questions (probed (kind_of dev) listed.now (names_of names.now)))
        (λ dev. Finds (probed (kind_of dev) listed.now (names_of names.now)) parts.old parts.new dev)
        (seen (P.told ready) (S.text shown.old)) (seen (P.told r) (S.text shown.new))) }
    ensures unlearned { IfErr result (λ e. IsUnlearned (λ dev.
        kind_questions (probed (kind_of dev) listed.now (names_of names.now)))
        (seen (P.told ready) (S.text shown.old)) (seen (P.told e.0) (S.text shown.new)) e.1) }
    ensures shown_later { S.faults shown.old ≤ S.faults shown.new }
    ensures output { IfErr result (λ e.
        e.1 ≡ DriveError.Output → Rose (S.faults shown.old) (S.faults shown.new)) }
{
    let (ready, found) = match ask_candidate(ready, names.first, listed, parts, shown) {
        Ok(answer) => answer,
        Err(stop) => return Err(stop),
    };
    if found {
        return Ok(ready);
    }
    match ask_candidate(ready, names.second, listed, parts, shown) {
        Ok((ready, _)) => Ok(ready),
        Err(stop) => Err(stop),
    }
}

/// Asks for the partition that a task's name stands for.
fn ask_aim<P: Port, S: Sink>(
    ready: Ready<P>,
    slot: Option<Slot>,
    other: bool,
    name: &Name,
    listed: &[Name],
    parts: &mut Parts,
    shown: &mut S,
) -> Result<Ready<P>, (Lost<P>, DriveError)>
    requires sound { Sound (P.told ready).peer }
    requires serving { Serving 8208 (P.told ready).peer }
    ensures same { IfOk result (λ r. P.lent r ≡ P.lent ready) }
    ensures same_lost { IfErr result (λ e. P.lent e.0 ≡ P.lent ready) }
    ensures learned { IfOk result (λ r. IsLearned 8208 (λ dev.
        kind_questions (probed (kind_of dev) listed.now (candidates slot other name.now)))
        (λ dev. Finds (probed (kind_of dev) listed.now (candidates slot other name.now))
        parts.old parts.new dev)
        (seen (P.told ready) (S.text shown.old)) (seen (P.told r) (S.text shown.new))) }
    ensures unlearned { IfErr result (λ e. IsUnlearned (λ dev.
        kind_questions (probed (kind_of dev) listed.now (candidates slot other name.now)))
        (seen (P.told ready) (S.text shown.old)) (seen (P.told e.0) (S.text shown.new)) e.1) }
    ensures shown_later { S.faults shown.old ≤ S.faults shown.new }
    ensures output { IfErr result (λ e.
        e.1 ≡ DriveError.Output → Rose (S.faults shown.old) (S.faults shown.new)) }
{
    let names = Candidates::new(slot, other, name);
    match ask_candidates(ready, &names, listed, parts, shown) {
        Ok(ready) => Ok(ready),
        Err(stop) => Err(stop),
    }
}

/// Asks for the partitions that a task may be for.
fn ask_task<P: Port, S: Sink>(
    ready: Ready<P>,
    slot: Option<Slot>,
    action: &Action,
    listed: &[Name],
    parts: &mut Parts,
    shown: &mut S,
) -> Result<Ready<P>, (Lost<P>, DriveError)>
    requires sound { Sound (P.told ready).peer }
    requires serving { Serving 8208 (P.told ready).peer }
    ensures same { IfOk result (λ r. P.lent r ≡ P.lent ready) }
    ensures same_lost { IfErr result (λ e. P.lent e.0 ≡ P.lent ready) }
    ensures learned { IfOk result (λ r. IsLearned 8208 (λ dev.
        kind_questions (task_probes slot listed.now action.now dev))
        (λ dev. Finds (task_probes slot listed.now action.now dev) parts.old parts.new dev)
        (seen (P.told ready) (S.text shown.old)) (seen (P.told r) (S.text shown.new))) }
    ensures unlearned { IfErr result (λ e. IsUnlearned (λ dev.
        kind_questions (task_probes slot listed.now action.now dev))
        (seen (P.told ready) (S.text shown.old)) (seen (P.told e.0) (S.text shown.new)) e.1) }
    ensures shown_later { S.faults shown.old ≤ S.faults shown.new }
    ensures output { IfErr result (λ e.
        e.1 ≡ DriveError.Output → Rose (S.faults shown.old) (S.faults shown.new)) }
{
    match action {
        Action::Flash { name, other, .. } => {
            match ask_aim(ready, slot, *other, name, listed, parts, shown) {
                Ok(ready) => Ok(ready),
                Err(stop) => Err(stop),
            }
        }
        Action::Erase(name) => match ask_aim(ready, slot, false, name, listed, parts, shown) {
            Ok(ready) => Ok(ready),
            Err(stop) => Err(stop),
        },
        Action::UpdateSuper => Ok(ready),
        Action::Reboot(_) => Ok(ready),
    }
}

/// Asks for the partitions that the tasks may be for, again for each task.
pub(crate) fn ask_parts<P: Port, S: Sink>(
    alloc: Global,
    ready: Ready<P>,
    slot: Option<Slot>,
    tasks: &[Task],
    listed: &[Name],
    shown: &mut S,
) -> Result<(Ready<P>, Parts), (Lost<P>, DriveError)>
    requires sound { Sound (P.told ready).peer }
    requires serving { Serving (8208 * length tasks.now) (P.told ready).peer }
    ensures same { IfOk result (λ r. P.lent r.0 ≡ P.lent ready) }
    ensures same_lost { IfErr result (λ e. P.lent e.0 ≡ P.lent ready) }
    ensures learned { IfOk result (λ r. IsLearned (8208 * length tasks.now) (λ dev.
        kind_questions (tasks_probes slot listed.now tasks.now dev))
        (λ dev. AllByRecursion (Tell r.1 dev) (tasks_probes slot listed.now tasks.now dev))
        (seen (P.told ready) (S.text shown.old)) (seen (P.told r.0) (S.text shown.new))) }
    ensures unlearned { IfErr result (λ e. IsUnlearned (λ dev.
        kind_questions (tasks_probes slot listed.now tasks.now dev))
        (seen (P.told ready) (S.text shown.old)) (seen (P.told e.0) (S.text shown.new)) e.1) }
    ensures shown_later { S.faults shown.old ≤ S.faults shown.new }
    ensures output { IfErr result (λ e.
        e.1 ≡ DriveError.Output → Rose (S.faults shown.old) (S.faults shown.new)) }
{
    let mut ready = ready;
    let mut parts = Items::new(alloc);
    for task in tasks {
        match ask_task(ready, slot, &task.action, listed, &mut parts, shown) {
            Ok(next) => ready = next,
            Err(stop) => return Err(stop),
        }
    }
    Ok((ready, parts))
}

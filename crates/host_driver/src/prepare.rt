//! The front half of an attempt: a device is asked, its requirements are decided, and its plan is made.
ghost use Rattle.std.specs.Prelude.{◌≡◌, ◌≤◌, ◌+◌, ◌*◌, length, Ok, IfOk, IfErr};
ghost use Rattle.std.specs.List.{list_any};
ghost use Rattle.fb_frame.specs.Causes.{Rose};
ghost use Rattle.wire_told.specs.Answered.{Sound};
ghost use Rattle.wire_told.specs.Ports.{Drops};
ghost use Rattle.fb_link.specs.Seen.{seen};
ghost use Rattle.flash_plan.specs.Facts.{facts_in};
ghost use Rattle.flash_plan.specs.Orders.{orders};
ghost use Rattle.flash_plan.specs.Plans.{work_of};
ghost use Rattle.flash_plan.specs.Products.{IsWhole, is_update};
ghost use Rattle.flash_plan.specs.Questions.{AreAnswers};
ghost use Rattle.host_driver.specs.Jobs.{order};
ghost use Rattle.host_driver.specs.Preparing.{decide_questions, IsDecided, part_questions, IsUnmade};
ghost use Rattle.host_driver.specs.Preparing.{IsPrepared, IsUnprepared};
ghost use Rattle.host_driver.specs.Questioning.{OfDevice, AreTraits, IsLearned, IsUnlearned};
ghost use Rattle.host_driver.specs.Stepping.{Serving};

use crate::asking_parts::ask_parts;
use crate::drive::DriveError;
use crate::questions::{Traits, ask_traits};
use crate::requirements::{Unmet, check};
use fb_frame::sink::Sink;
use fb_link::port::Port;
use fb_link::states::{Lost, Ready};
use flash_plan::answers::Answers;
use flash_plan::options::Options;
use flash_plan::plan::{Plan, PlanError, plan};
use flash_plan::plan_listed::{listed_in, updates_super};
use flash_plan::product::Product;
use std::alloc::Global;

/// A plan, and how many bytes one download to its device has at most.
#[derive(Debug, Drop)]
pub struct Prepared {
    pub plan: Plan,
    pub max: u32,
}

/// The end of an attempt at a line that the device doesn't meet.
fn given_up<P: Port>(ready: Ready<P>, unmet: Unmet) -> (Lost<P>, DriveError)
    ensures stop { result.1 ≡ DriveError.Requirement unmet.line unmet.name unmet.value }
    ensures drops { Drops (P.told ready) (P.told result.0) }
    ensures sound { Sound (P.told result.0).peer }
    ensures same { P.lent result.0 ≡ P.lent ready }
{
    let Unmet { line, name, value } = unmet;
    (
        ready.hang_up(),
        DriveError::Requirement { line, name, value },
    )
}

/// Asks what every plan rests on and what the requirements need. A line that the device doesn't meet ends the
/// attempt, unless the requirements are passed over.
fn decide<P: Port, S: Sink>(
    ready: Ready<P>,
    product: &Product,
    options: &Options,
    shown: &mut S,
) -> Result<(Ready<P>, Traits), (Lost<P>, DriveError)>
    requires sound { Sound (P.told ready).peer }
    requires serving { Serving (20520 + 4104 * length product.now.requirements) (P.told ready).peer }
    ensures same { IfOk result (λ r. P.lent r.0 ≡ P.lent ready) }
    ensures same_lost { IfErr result (λ e. P.lent e.0 ≡ P.lent ready) }
    ensures large { IfOk result (λ r. 131072 ≤ r.1.max) }
    ensures decided { IfOk result (λ r. IsLearned (20520 + 4104 * length product.now.requirements)
        (decide_questions (order product.now options.now)) (IsDecided (order product.now options.now) r.1)
        (seen (P.told ready) (S.text shown.old)) (seen (P.told r.0) (S.text shown.new))) }
    ensures unprepared { IfErr result (λ e. IsUnprepared (order product.now options.now)
        (seen (P.told ready) (S.text shown.old)) (seen (P.told e.0) (S.text shown.new)) e.1) }
    ensures shown_later { S.faults shown.old ≤ S.faults shown.new }
    ensures output { IfErr result (λ e.
        e.1 ≡ DriveError.Output → Rose (S.faults shown.old) (S.faults shown.new)) }
{
    let tasks = product.tasks.as_slice();
    let lines = product.requirements.as_slice();
    let updates = updates_super(tasks);
    let (ready, traits) = match ask_traits(ready, updates, shown) {
        Ok(answer) => answer,
        Err(stop) => return Err(stop),
    };
    let (ready, unmet) = match check(ready, lines, options.force, shown) {
        Ok(answer) => answer,
        Err(stop) => return Err(stop),
    };
    match unmet {
        None => Ok((ready, traits)),
        Some(unmet) => Err(given_up(ready, unmet)),
    }
}

/// Asks for the partitions that the tasks may be for, and gives all answers.
fn ask_answers<P: Port, S: Sink>(
    alloc: Global,
    ready: Ready<P>,
    product: &Product,
    options: &Options,
    traits: Traits,
    shown: &mut S,
) -> Result<(Ready<P>, Answers), (Lost<P>, DriveError)>
    requires sound { Sound (P.told ready).peer }
    requires serving { Serving (8208 * length product.now.tasks) (P.told ready).peer }
    requires traits { OfDevice (AreTraits (list_any is_update product.now.tasks) traits) (P.told ready).peer }
    ensures same { IfOk result (λ r. P.lent r.0 ≡ P.lent ready) }
    ensures same_lost { IfErr result (λ e. P.lent e.0 ≡ P.lent ready) }
    ensures most { IfOk result (λ r. r.1.max ≡ traits.max) }
    ensures learned { IfOk result (λ r. IsLearned (8208 * length product.now.tasks)
        (part_questions (order product.now options.now))
        (λ dev. AreAnswers (work_of product.now) options.now.slot dev r.1)
        (seen (P.told ready) (S.text shown.old)) (seen (P.told r.0) (S.text shown.new))) }
    ensures unlearned { IfErr result (λ e. IsUnlearned (part_questions (order product.now options.now))
        (seen (P.told ready) (S.text shown.old)) (seen (P.told e.0) (S.text shown.new)) e.1) }
    ensures shown_later { S.faults shown.old ≤ S.faults shown.new }
    ensures output { IfErr result (λ e.
        e.1 ≡ DriveError.Output → Rose (S.faults shown.old) (S.faults shown.new)) }
{
    let tasks = product.tasks.as_slice();
    let Ok(listed) = listed_in(alloc, tasks, &product.empty) else {
        return Err((ready.hang_up(), DriveError::Memory));
    };
    let slot = options.slot.slot(traits.current);
    let names = listed.as_slice();
    match ask_parts(alloc, ready, slot, tasks, names, shown) {
        Ok((ready, parts)) => Ok((
            ready,
            Answers {
                current: traits.current,
                max: traits.max,
                super_name: traits.super_name,
                parts,
            },
        )),
        Err(stop) => Err(stop),
    }
}

/// Makes the plan by the answers. Where none is made, the connection is ended.
fn make<P: Port>(
    alloc: Global,
    ready: Ready<P>,
    product: &Product,
    options: &Options,
    answers: &Answers,
) -> Result<(Ready<P>, Prepared), (Lost<P>, DriveError)>
    requires few { length product.now.tasks ≤ 256 }
    ensures ready { IfOk result (λ r. r.0 ≡ ready) }
    ensures made { IfOk result (λ r.
        orders (work_of product.now) options.now (facts_in answers.now) ≡ Ok r.1.plan) }
    ensures most { IfOk result (λ r. r.1.max ≡ answers.now.max) }
    ensures unmade { IfErr result (λ e. IsUnmade (order product.now options.now) answers.now e.1) }
    ensures drops { IfErr result (λ e. Drops (P.told ready) (P.told e.0)) }
    ensures sound { IfErr result (λ e. Sound (P.told e.0).peer) }
    ensures same_lost { IfErr result (λ e. P.lent e.0 ≡ P.lent ready) }
{
    match plan(alloc, product, options, answers) {
        Ok(plan) => Ok((
            ready,
            Prepared {
                plan,
                max: answers.max,
            },
        )),
        Err(PlanError::Memory) => Err((ready.hang_up(), DriveError::Memory)),
        Err(PlanError::Bad { line, kind }) => {
            Err((ready.hang_up(), DriveError::Plan { line, kind }))
        }
    }
}

/// Asks a device all that its plan rests on, decides the requirements, and makes the plan.
pub fn prepare<P: Port, S: Sink>(
    alloc: Global,
    ready: Ready<P>,
    product: &Product,
    options: &Options,
    shown: &mut S,
) -> Result<(Ready<P>, Prepared), (Lost<P>, DriveError)>
    requires whole { IsWhole product.now }
    requires sound { Sound (P.told ready).peer }
    requires serving { Serving 4194304 (P.told ready).peer }
    ensures prepared { IfOk result (λ r. IsPrepared (order product.now options.now) r.1.plan r.1.max
        (seen (P.told ready) (S.text shown.old)) (seen (P.told r.0) (S.text shown.new))) }
    ensures unprepared { IfErr result (λ e. IsUnprepared (order product.now options.now)
        (seen (P.told ready) (S.text shown.old)) (seen (P.told e.0) (S.text shown.new)) e.1) }
    ensures same { IfOk result (λ r. P.lent r.0 ≡ P.lent ready) }
    ensures same_lost { IfErr result (λ e. P.lent e.0 ≡ P.lent ready) }
    ensures shown_later { S.faults shown.old ≤ S.faults shown.new }
    ensures output { IfErr result (λ e.
        e.1 ≡ DriveError.Output → Rose (S.faults shown.old) (S.faults shown.new)) }
{
    let (ready, traits) = match decide(ready, product, options, shown) {
        Ok(answer) => answer,
        Err(stop) => return Err(stop),
    };
    let (ready, answers) = match ask_answers(alloc, ready, product, options, traits, shown) {
        Ok(answer) => answer,
        Err(stop) => return Err(stop),
    };
    match make(alloc, ready, product, options, &answers) {
        Ok((ready, prepared)) => Ok((ready, prepared)),
        Err(stop) => Err(stop),
    }
}

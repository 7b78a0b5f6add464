//! The steps of a plan, one after another.
ghost use Rattle.std.specs.Prelude.{◌≡◌, ◌≤◌, true, false, length, IsTrue, IfOk, IfErr, OnOk, OnErr};
ghost use Rattle.fb_frame.specs.Causes.{Rose, HasCause};
ghost use Rattle.fb_frame.specs.Sinks.{Grew, GrewPart};
ghost use Rattle.fb_link.specs.Seen.{seen};
ghost use Rattle.flash_plan.specs.Plans.{work_of};
ghost use Rattle.flash_plan.specs.Products.{OfFiles, IsWhole};
ghost use Rattle.wire_told.specs.Answered.{Sound};
ghost use Rattle.wire_told.specs.Peers.{OfLink};
ghost use Rattle.wire_told.specs.Ports.{Drops};
ghost use Rattle.host_driver.specs.Beginning.{IsBegun, IsUnbegun};
ghost use Rattle.host_driver.specs.Printing.{image_long, step_line};
ghost use Rattle.host_driver.specs.Running.{IsOf, IsFor, IsDoneAll, IsBrokenAt, IsUnreadNext, plan_cost, running};
ghost use Rattle.host_driver.specs.Stepping.{Serving};
ghost use Rattle.flash_plan.specs.declared.plan.Order.TheVariants.{Boot};
ghost use Rattle.host_driver.specs.Taking.{AreImages, HasOwn, is_renewing, supply};

use crate::begin::renew;
use crate::drive::DriveError;
use crate::lines::put_step;
use crate::steps::take_order;
use fb_frame::sink::Sink;
use fb_link::port::Port;
use fb_link::states::{Lost, Ready};
use fb_message::command::BootTarget;
use flash_plan::dir::ProductDir;
use flash_plan::plan::Order;
use flash_plan::product::Product;

/// How far an attempt got in the steps of its plan.
#[derive(Drop)]
pub struct Ran<P> {
    pub link: Lost<P>,
    pub acknowledged: u32,
    pub end: Result<(), DriveError>,
}

/// How long the image is that a step puts, 0 for any other.
#[tactic(auto, using(crate::proofs::DriveFiles::lengths))]
fn image_len(order: &Order, product: &Product) -> u64
    requires own { HasOwn product.now order.now }
    ensures { result ≡ image_long (work_of product.now).sizes order.now }
{
    match order {
        Order::Put(_, place) => product.images.as_slice()[*place as usize].len(),
        _ => 0,
    }
}

/// Prints the line of a step that was acknowledged. Where that fails the connection is given up.
fn show_step<P: Port, S: Sink>(
    ready: Ready<P>,
    order: &Order,
    product: &Product,
    shown: &mut S,
) -> Result<Ready<P>, Lost<P>>
    requires own { HasOwn product.now order.now }
    ensures same { IfOk result (λ r. r ≡ ready) }
    ensures shown { OnOk result (Grew (S.text shown.old) (S.text shown.new)
        (step_line (work_of product.now).sizes order.now)) }
    ensures part { OnErr result (GrewPart (S.text shown.old) (S.text shown.new)
        (step_line (work_of product.now).sizes order.now)) }
    ensures drops { IfErr result (λ lost. Drops (P.told ready) (P.told lost)) }
    ensures sound { IfErr result (λ lost. Sound (P.told lost).peer) }
    ensures same_lost { IfErr result (λ lost. P.lent lost ≡ P.lent ready) }
    ensures cause { HasCause (S.faults shown.old) (S.faults shown.new) result }
{
    match put_step(order, image_len(order, product), shown) {
        Ok(()) => Ok(ready),
        Err(_) => Err(ready.hang_up()),
    }
}

/// Whether the device answers fastboot commands after this reboot.
fn comes_back(what: BootTarget) -> bool
    ensures { result ≡ is_renewing (Boot what) }
{
    match what {
        BootTarget::Bootloader => true,
        BootTarget::Fastboot => true,
        BootTarget::System => false,
        BootTarget::Recovery => false,
    }
}

/// Whether another connection begins after a step: after a reboot into fastboot.
fn renews(order: &Order) -> bool
    ensures { result ≡ is_renewing order.now }
{
    match order {
        Order::Boot(what) => comes_back(*what),
        _ => false,
    }
}

/// Begins another connection after a reboot into fastboot; after any other step the one that is up goes on.
fn settle<P: Port>(ready: Ready<P>, order: &Order) -> Result<Ready<P>, (Lost<P>, DriveError)>
    requires aimed { IsTrue (P.told ready).aimed }
    ensures stays { is_renewing order.now ≡ false → IfOk result (λ r. r ≡ ready) }
    ensures begun { is_renewing order.now ≡ true → IfOk result (λ r. IsBegun (P.told ready) (P.told r)) }
    ensures unbegun { IfErr result (λ e. IsUnbegun (P.told ready) (P.told e.0) e.1) }
    ensures renews { OnErr result (is_renewing order.now ≡ true) }
    ensures same { IfOk result (λ r. P.lent r ≡ P.lent ready) }
    ensures same_lost { IfErr result (λ e. P.lent e.0 ≡ P.lent ready) }
{
    if renews(order) {
        renew(ready)
    } else {
        Ok(ready)
    }
}

/// Takes the steps of a plan from the first on, and prints the line of each when it is acknowledged.
pub fn run<D: ProductDir, P: Port, S: Sink>(
    ready: Ready<P>,
    plan: &[Order],
    product: &Product,
    most: u32,
    dir: &mut D,
    shown: &mut S,
) -> Ran<P>
    requires large { 131072 ≤ most }
    requires aimed { IsTrue (P.told ready).aimed }
    requires entered { IsTrue (D.entered dir.old) }
    requires whole { IsWhole product.now }
    requires images { OfFiles (D.files dir.old) (AreImages product.now) }
    requires plan { IsOf product.now plan.now }
    requires fit { OfLink (λ w. IsFor plan.now most w.device) (P.told ready).peer }
    requires serving { Serving (plan_cost plan.now) (P.told ready).peer }
    ensures done { OnOk result.end (result.acknowledged ≡ length plan.now) }
    ensures all { OnOk result.end (IsDoneAll (running (supply (D.files dir.old) product.now most) plan.now)
        (seen (P.told ready) (S.text shown.old)) (seen (P.told result.link) (S.text shown.new))) }
    ensures broken { IfErr result.end (λ e. IsBrokenAt
        (IsUnreadNext (running (supply (D.files dir.old) product.now most) plan.now) result.acknowledged
        (D.faults dir.old) (D.faults dir.new))
        (running (supply (D.files dir.old) product.now most) plan.now) result.acknowledged
        (seen (P.told ready) (S.text shown.old), seen (P.told result.link) (S.text shown.new)) e) }
    ensures same { P.lent result.link ≡ P.lent ready }
    ensures shown_later { S.faults shown.old ≤ S.faults shown.new }
    ensures output { IfErr result.end (λ e.
        e ≡ DriveError.Output → Rose (S.faults shown.old) (S.faults shown.new)) }
    ensures entered { D.entered dir.new ≡ D.entered dir.old }
    ensures path { D.told_path dir.new ≡ D.told_path dir.old }
    ensures files { D.files dir.new ≡ D.files dir.old }
    ensures dir_same { D.lent dir.new ≡ D.lent dir.old }
    ensures read_later { D.faults dir.old ≤ D.faults dir.new }
{
    let mut ready = ready;
    let mut at = 0;
    while at < plan.len() {
        let order = &plan[at];
        match take_order(ready, order, product, most, dir, shown) {
            Ok(next) => ready = next,
            Err((link, error)) => {
                return Ran {
                    link,
                    acknowledged: at as u32,
                    end: Err(error),
                };
            }
        }
        at += 1;
        match show_step(ready, order, product, shown) {
            Ok(next) => ready = next,
            Err(link) => {
                return Ran {
                    link,
                    acknowledged: at as u32,
                    end: Err(DriveError::Output),
                };
            }
        }
        match settle(ready, order) {
            Ok(next) => ready = next,
            Err((link, error)) => {
                return Ran {
                    link,
                    acknowledged: at as u32,
                    end: Err(error),
                };
            }
        }
    }
    Ran {
        link: ready.hang_up(),
        acknowledged: at as u32,
        end: Ok(()),
    }
}

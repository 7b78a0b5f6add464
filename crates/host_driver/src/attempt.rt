//! One attempt at an installation.
ghost use Rattle.std.specs.Prelude.{◌≡◌, ◌≤◌, IsTrue, IfSome, IfErr, IfOk, OnErr, Some, None, is_some};
ghost use Rattle.fb_frame.specs.Causes.{Rose};
ghost use Rattle.wire_told.specs.Answered.{Sound};
ghost use Rattle.fb_link.specs.Seen.{seen};
ghost use Rattle.flash_plan.specs.Products.{OfFiles, IsWhole};
ghost use Rattle.host_driver.specs.Jobs.{folder, outside, order};
ghost use Rattle.host_driver.specs.Preparing.{IsPrepared, IsUnprepared};
ghost use Rattle.host_driver.specs.Stepping.{Serving};
ghost use Rattle.host_driver.specs.Taking.{AreImages};
ghost use Rattle.host_driver.specs.Trying.{IsUsable, IsTried, came, trial};

use crate::begin::begin;
use crate::drive::DriveError;
use crate::prepare::{Prepared, prepare};
use crate::running::run;
use fb_frame::sink::Sink;
use fb_link::port::Port;
use fb_link::states::{Lost, Ready};
use flash_plan::dir::ProductDir;
use flash_plan::options::Options;
use flash_plan::product::Product;
use std::alloc::Global;

/// What an attempt came to: the plan that is kept after it, how many steps were acknowledged in it, and how
/// it ended.
#[derive(Drop)]
pub struct Tried<P> {
    pub link: Lost<P>,
    pub kept: Option<Prepared>,
    pub acknowledged: u32,
    pub end: Result<(), DriveError>,
}

/// The plan that is kept, or the one that is made now.
fn plan_for<P: Port, S: Sink>(
    alloc: Global,
    ready: Ready<P>,
    kept: Option<Prepared>,
    product: &Product,
    options: &Options,
    out: &mut S,
) -> Result<(Ready<P>, Prepared), (Lost<P>, DriveError)>
    requires whole { IsWhole product.now }
    requires sound { Sound (P.told ready).peer }
    requires serving { Serving 4194304 (P.told ready).peer }
    ensures kept { (p : _) → kept ≡ Some p → IfOk result (λ r. (r.0 ≡ ready) × (r.1 ≡ p)) }
    ensures quiet { IsTrue (is_some kept) → S.text out.new ≡ S.text out.old }
    ensures prepared { kept ≡ None →
        IfOk result (λ r. IsPrepared (order product.now options.now) r.1.plan r.1.max
        (seen (P.told ready) (S.text out.old)) (seen (P.told r.0) (S.text out.new))) }
    ensures unmade { OnErr result (kept ≡ None) }
    ensures unprepared { IfErr result (λ e. IsUnprepared (order product.now options.now)
        (seen (P.told ready) (S.text out.old)) (seen (P.told e.0) (S.text out.new)) e.1) }
    ensures same { IfOk result (λ r. P.lent r.0 ≡ P.lent ready) }
    ensures same_lost { IfErr result (λ e. P.lent e.0 ≡ P.lent ready) }
    ensures shown_later { S.faults out.old ≤ S.faults out.new }
    ensures output { IfErr result (λ e.
        e.1 ≡ DriveError.Output → Rose (S.faults out.old) (S.faults out.new)) }
{
    match kept {
        Some(prepared) => Ok((ready, prepared)),
        None => match prepare(alloc, ready, product, options, out) {
            Ok(made) => Ok(made),
            Err(stop) => Err(stop),
        },
    }
}

/// Begins a connection, makes the plan unless one is kept, and takes its steps from the first on.
pub fn attempt<D: ProductDir, P: Port, S: Sink>(
    alloc: Global,
    link: Lost<P>,
    kept: Option<Prepared>,
    product: &Product,
    options: &Options,
    dir: &mut D,
    out: &mut S,
) -> Tried<P>
    requires aimed { IsTrue (P.told link).aimed }
    requires sound { Sound (P.told link).peer }
    requires entered { IsTrue (D.entered dir.old) }
    requires whole { IsWhole product.now }
    requires images { OfFiles (D.files dir.old) (AreImages product.now) }
    requires kept { IfSome kept (IsUsable product.now (P.told link).peer) }
    ensures tried { IsTried (order product.now options.now) (trial
        (outside (P.told link)
        (folder (D.told_path dir.old) (D.files dir.old) (D.entered dir.old) (D.faults dir.old))
        (S.text out.old) (S.faults out.old))
        (outside (P.told result.link)
        (folder (D.told_path dir.new) (D.files dir.new) (D.entered dir.new) (D.faults dir.new))
        (S.text out.new) (S.faults out.new))
        (came kept result.kept result.acknowledged result.end)) }
    ensures same { P.lent result.link ≡ P.lent link }
    ensures dir_same { D.lent dir.new ≡ D.lent dir.old }
{
    let ready = match begin(link) {
        Ok(ready) => ready,
        Err((link, error)) => {
            return Tried {
                link,
                kept,
                acknowledged: 0,
                end: Err(error),
            };
        }
    };
    match plan_for(alloc, ready, kept, product, options, out) {
        Ok((ready, prepared)) => {
            let plan = prepared.plan.as_slice();
            let ran = run(ready, plan, product, prepared.max, dir, out);
            Tried {
                link: ran.link,
                kept: Some(prepared),
                acknowledged: ran.acknowledged,
                end: ran.end,
            }
        }
        Err((link, error)) => Tried {
            link,
            kept: None,
            acknowledged: 0,
            end: Err(error),
        },
    }
}

//! An installation: attempts at a product's plan over a link.
ghost use Rattle.std.specs.Prelude.{◌≡◌, ◌≤◌, ◌+◌, take, drop, All, Ok, IsTrue};
ghost use Rattle.wire_told.specs.Answered.{Sound};
ghost use Rattle.flash_plan.specs.Products.{OfFiles, IsWhole, product_of};
ghost use Rattle.host_driver.specs.Driving.{Drives};
ghost use Rattle.host_driver.specs.Jobs.{folder, outside, order, course};
ghost use Rattle.host_driver.specs.Trying.{may_pass, goes_on};

use crate::attempt::{Tried, attempt};
use crate::drive::{Done, Drive, DriveError};
use crate::lines::put_retry;
use fb_frame::sink::Sink;
use fb_link::port::Port;
use fb_link::states::Lost;
use flash_plan::dir::ProductDir;
use flash_plan::options::Options;
use flash_plan::product::Product;
use std::alloc::Global;

/// Whether another attempt may do better: the link failed or ended.
fn may_pass(error: &DriveError) -> bool
    ensures { result ≡ may_pass error.now }
{
    matches!(error, DriveError::Link | DriveError::Ended)
}

/// Whether another attempt is made after so many, of which the last ended with this error.
fn goes_on(error: &DriveError, attempts: u8, retries: u8) -> bool
    ensures { result ≡ goes_on error.now attempts retries }
{
    may_pass(error) && attempts <= retries
}

/// Installs a product: asks the device, plans, and takes the steps in order, each printed when it is
/// acknowledged. A link that fails or ends is followed by another attempt while any is left, which runs the
/// whole plan again; a plan once made is kept.
pub fn flash<D: ProductDir, P: Port, S: Sink>(
    alloc: Global,
    product: &Product,
    options: &Options,
    dir: &mut D,
    link: Lost<P>,
    out: &mut S,
) -> Drive<P>
    requires aimed { IsTrue (P.told link).aimed }
    requires sound { Sound (P.told link).peer }
    requires entered { IsTrue (D.entered dir.old) }
    requires whole { IsWhole product.now }
    requires product { OfFiles (D.files dir.old)
        (λ files. product_of files options.now.wipe ≡ Ok product.now) }
    requires few { options.now.retries ≤ 9 }
    ensures drives { Drives (order product.now options.now)
        (outside (P.told link)
        (folder (D.told_path dir.old) (D.files dir.old) (D.entered dir.old) (D.faults dir.old))
        (S.text out.old) (S.faults out.old))
        (outside (P.told result.link)
        (folder (D.told_path dir.new) (D.files dir.new) (D.entered dir.new) (D.faults dir.new))
        (S.text out.new) (S.faults out.new))
        (course (take result.attempts result.acknowledged) result.outcome) }
    ensures attempts { result.attempts ≤ options.now.retries + 1 }
    ensures unbegun { All (λ n. n ≡ 0) (drop result.attempts result.acknowledged) }
    ensures same { P.lent result.link ≡ P.lent link }
    ensures dir_same { D.lent dir.new ≡ D.lent dir.old }
{
    let mut link = link;
    let mut kept = None;
    let mut acknowledged = [0; 10];
    let mut attempts = 0;
    'attempts: loop {
        let Tried {
            link: lost,
            kept: keeps,
            acknowledged: count,
            end,
        } = attempt(alloc, link, kept, product, options, dir, out);
        acknowledged[attempts as usize] = count;
        attempts += 1;
        let Err(error) = end else {
            return Drive {
                link: lost,
                acknowledged,
                attempts,
                outcome: Ok(Done {
                    steps: count,
                    attempts,
                }),
            };
        };
        if !goes_on(&error, attempts, options.retries) {
            return Drive {
                link: lost,
                acknowledged,
                attempts,
                outcome: Err(error),
            };
        }
        let Ok(()) = put_retry(attempts, out) else {
            return Drive {
                link: lost,
                acknowledged,
                attempts,
                outcome: Err(DriveError::Output),
            };
        };
        link = lost;
        kept = keeps;
    }
}

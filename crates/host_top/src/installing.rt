//! An installation: the folder's product is read, the port aimed, and the plan taken.
ghost use Rattle.std.specs.Prelude.{◌≡◌, ◌≤◌, Ok, Some, IsTrue};
ghost use Rattle.wire_told.specs.Answered.{Sound};
ghost use Rattle.flash_plan.specs.Products.{OfFiles, IsWhole, product_of};
ghost use Rattle.fb_link.specs.Targets.{place_of};
ghost use Rattle.host_driver.specs.Jobs.{folder, outside, order};
ghost use Rattle.host_words.specs.Requests.{FlashAll};
ghost use Rattle.host_top.specs.Acts.{HasRun};
ghost use Rattle.host_top.specs.Ending.{Ends};
ghost use Rattle.host_top.specs.Hosted.{Lasts};

use crate::opening::{open, unread_verdict};
use crate::report::{end, end_any};
use crate::stops::{aim_verdict, end_verdict};
use fb_frame::sink::Sink;
use fb_link::port::{Port, Target};
use fb_link::states::Lost;
use flash_plan::dir::ProductDir;
use flash_plan::options::Options;
use flash_plan::product::Product;
use host_driver::drive::Drive;
use host_driver::flash::flash;
use std::alloc::Global;

/// Installs a product over a port that is aimed, and puts the last line. Answers the status.
fn install<D: ProductDir, P: Port, S: Sink>(
    alloc: Global,
    product: &Product,
    options: &Options,
    dir: &mut D,
    port: &mut P,
    out: &mut S,
) -> u8
    requires aimed { IsTrue (P.told port.old).aimed }
    requires sound { Sound (P.told port.old).peer }
    requires entered { IsTrue (D.entered dir.old) }
    requires whole { IsWhole product.now }
    requires product { OfFiles (D.files dir.old)
        (λ files. product_of files options.now.wipe ≡ Ok product.now) }
    requires few { options.now.retries ≤ 9 }
    ensures run { HasRun (order product.now options.now)
        (outside (P.told port.old)
        (folder (D.told_path dir.old) (D.files dir.old) (D.entered dir.old) (D.faults dir.old))
        (S.text out.old) (S.faults out.old))
        (outside (P.told port.new)
        (folder (D.told_path dir.new) (D.files dir.new) (D.entered dir.new) (D.faults dir.new))
        (S.text out.new) (S.faults out.new))
        result }
    ensures same { P.lent port.new ≡ P.lent port.old }
    ensures dir_same { D.lent dir.new ≡ D.lent dir.old }
{
    let Drive { link, outcome, .. } = flash(
        alloc,
        product,
        options,
        dir,
        Lost::new(&mut *port),
        out,
    );
    let _port = link.into_port();
    end_any(end_verdict(&outcome), out)
}

/// Installs the product of the folder of this path on the device that the target stands for, and puts the
/// last line. Answers the status.
pub(crate) fn flash_all<D: ProductDir, P: Port, S: Sink>(
    alloc: Global,
    target: &Target<'_>,
    path: &str,
    options: &Options,
    dir: &mut D,
    port: &mut P,
    out: &mut S,
) -> u8
    requires few { options.now.retries ≤ 9 }
    ensures ends { Ends (Some (FlashAll (place_of target.now) path.now options.now))
        (outside (P.told port.old)
        (folder (D.told_path dir.old) (D.files dir.old) (D.entered dir.old) (D.faults dir.old))
        (S.text out.old) (S.faults out.old))
        (outside (P.told port.new)
        (folder (D.told_path dir.new) (D.files dir.new) (D.entered dir.new) (D.faults dir.new))
        (S.text out.new) (S.faults out.new))
        result }
    ensures lasts { Lasts
        (outside (P.told port.old)
        (folder (D.told_path dir.old) (D.files dir.old) (D.entered dir.old) (D.faults dir.old))
        (S.text out.old) (S.faults out.old))
        (outside (P.told port.new)
        (folder (D.told_path dir.new) (D.files dir.new) (D.entered dir.new) (D.faults dir.new))
        (S.text out.new) (S.faults out.new)) }
    ensures same { P.lent port.new ≡ P.lent port.old }
    ensures dir_same { D.lent dir.new ≡ D.lent dir.old }
{
    let product = match open(alloc, path, options.wipe, dir) {
        Ok(product) => product,
        Err(error) => return end(unread_verdict(&error, path), out),
    };
    match port.aim(alloc, target) {
        Ok(()) => install(alloc, &product, options, dir, port, out),
        Err(error) => end(aim_verdict(&error), out),
    }
}

//! A step of a plan, of whatever kind, from a folder to a link.
ghost use Rattle.std.specs.Prelude.{◌≡◌, ◌≤◌, ◌<◌, ◌^◌, flat_map, option_to_list, length, slice_get, IsTrue, IfOk, IfErr};
ghost use Rattle.fb_frame.specs.Causes.{Rose};
ghost use Rattle.fb_link.specs.Seen.{seen};
ghost use Rattle.flash_plan.specs.declared.plan.Order.TheVariants.{Put};
ghost use Rattle.flash_plan.specs.Products.{OfFiles, IsWhole, image_file, file_of_action};
ghost use Rattle.wire_told.specs.Peers.{OfLink};
ghost use Rattle.host_driver.specs.Stepping.{Serving};
ghost use Rattle.host_driver.specs.Taking.{AreImages, HasOwn, IsNamed, IsTaken, IsUntaken, IsUnreadAt};
ghost use Rattle.host_driver.specs.Taking.{order_cost, supply, taking};

use crate::drive::DriveError;
use crate::put::put;
use crate::step::take_alone;
use crate::tables::take_tables;
use fb_frame::name::Name;
use fb_frame::sink::Sink;
use fb_frame::word::Word;
use fb_link::port::Port;
use fb_link::states::{Lost, Ready};
use flash_plan::dir::ProductDir;
use flash_plan::dir_bytes::DirBytes;
use flash_plan::plan::Order;
use flash_plan::product::Product;
use product_info::task::{Action, Task};

/// The file that a task flashes.
fn file_in(action: &Action) -> Option<Word>
    ensures { option_to_list result ≡ file_of_action action.now }
{
    match action {
        Action::Flash { file, .. } => Some(*file),
        Action::Reboot(_) => None,
        Action::UpdateSuper => None,
        Action::Erase(_) => None,
    }
}

/// The file of the image at a place, None where there are fewer flash tasks.
#[tactic(auto, using(crate::proofs::DriveFiles::places))]
fn file_of(tasks: &[Task], place: u32) -> Option<Word>
    ensures { result ≡ slice_get (flat_map image_file tasks.now) place }
{
    let mut left = place;
    for task in tasks {
        if let Some(file) = file_in(&task.action) {
            if left == 0 {
                return Some(file);
            }
            left -= 1;
        }
    }
    None
}

/// Puts the image at a place over the partition.
#[tactic(auto, using(crate::proofs::DriveFiles::puts))]
fn put_order<D: ProductDir, P: Port, S: Sink>(
    ready: Ready<P>,
    name: &Name,
    place: u32,
    product: &Product,
    most: u32,
    dir: &mut D,
    shown: &mut S,
) -> Result<Ready<P>, (Lost<P>, DriveError)>
    requires large { 131072 ≤ most }
    requires entered { IsTrue (D.entered dir.old) }
    requires whole { IsWhole product.now }
    requires images { OfFiles (D.files dir.old) (AreImages product.now) }
    requires own { place < length product.now.images }
    requires serving { Serving (2 ^ 48) (P.told ready).peer }
    requires fits { OfLink (λ w. most ≤ w.device.max) (P.told ready).peer }
    ensures taken { IfOk result (λ r. IsTaken
        (taking (supply (D.files dir.old) product.now most) (Put name.now place))
        (seen (P.told ready) (S.text shown.old)) (seen (P.told r) (S.text shown.new))) }
    ensures untaken { IfErr result (λ e. IsUntaken
        (IsUnreadAt product.now (Put name.now place) (D.faults dir.old) (D.faults dir.new))
        (taking (supply (D.files dir.old) product.now most) (Put name.now place))
        (seen (P.told ready) (S.text shown.old)) (seen (P.told e.0) (S.text shown.new)) e.1) }
    ensures same { IfOk result (λ r. P.lent r ≡ P.lent ready) }
    ensures same_lost { IfErr result (λ e. P.lent e.0 ≡ P.lent ready) }
    ensures shown_later { S.faults shown.old ≤ S.faults shown.new }
    ensures output { IfErr result (λ e.
        e.1 ≡ DriveError.Output → Rose (S.faults shown.old) (S.faults shown.new)) }
    ensures entered { D.entered dir.new ≡ D.entered dir.old }
    ensures path { D.told_path dir.new ≡ D.told_path dir.old }
    ensures files { D.files dir.new ≡ D.files dir.old }
    ensures dir_same { D.lent dir.new ≡ D.lent dir.old }
    ensures read_later { D.faults dir.old ≤ D.faults dir.new }
{
    let index = &product.images.as_slice()[place as usize];
    let Some(file) = file_of(product.tasks.as_slice(), place) else {
        unreachable!();
    };
    let _long = index.len();
    let mut source = DirBytes::new(dir, &file, index.source_len());
    put(ready, name, index, most, &file, &mut source, shown)
}

/// Takes a step of a plan: an image is put over its partition from its file, tables are downloaded before
/// super is updated by them, and any other step is one command.
pub fn take_order<D: ProductDir, P: Port, S: Sink>(
    ready: Ready<P>,
    order: &Order,
    product: &Product,
    most: u32,
    dir: &mut D,
    shown: &mut S,
) -> Result<Ready<P>, (Lost<P>, DriveError)>
    requires large { 131072 ≤ most }
    requires entered { IsTrue (D.entered dir.old) }
    requires whole { IsWhole product.now }
    requires images { OfFiles (D.files dir.old) (AreImages product.now) }
    requires own { HasOwn product.now order.now }
    requires named { OfLink (λ w. IsNamed w.device order.now) (P.told ready).peer }
    requires serving { Serving (order_cost order.now) (P.told ready).peer }
    requires fits { OfLink (λ w. most ≤ w.device.max) (P.told ready).peer }
    ensures taken { IfOk result (λ r. IsTaken
        (taking (supply (D.files dir.old) product.now most) order.now)
        (seen (P.told ready) (S.text shown.old)) (seen (P.told r) (S.text shown.new))) }
    ensures untaken { IfErr result (λ e. IsUntaken
        (IsUnreadAt product.now order.now (D.faults dir.old) (D.faults dir.new))
        (taking (supply (D.files dir.old) product.now most) order.now)
        (seen (P.told ready) (S.text shown.old)) (seen (P.told e.0) (S.text shown.new)) e.1) }
    ensures same { IfOk result (λ r. P.lent r ≡ P.lent ready) }
    ensures same_lost { IfErr result (λ e. P.lent e.0 ≡ P.lent ready) }
    ensures shown_later { S.faults shown.old ≤ S.faults shown.new }
    ensures output { IfErr result (λ e.
        e.1 ≡ DriveError.Output → Rose (S.faults shown.old) (S.faults shown.new)) }
    ensures entered { D.entered dir.new ≡ D.entered dir.old }
    ensures path { D.told_path dir.new ≡ D.told_path dir.old }
    ensures files { D.files dir.new ≡ D.files dir.old }
    ensures dir_same { D.lent dir.new ≡ D.lent dir.old }
    ensures read_later { D.faults dir.old ≤ D.faults dir.new }
{
    match order {
        Order::Put(name, place) => put_order(ready, name, *place, product, most, dir, shown),
        Order::Table(name, wipe) => match &product.empty {
            Some(image) => take_tables(ready, name, *wipe, image.as_slice(), shown),
            None => unreachable!(),
        },
        _ => take_alone(ready, order, shown),
    }
}

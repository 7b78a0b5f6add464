//! The folder is entered, and its product read.
ghost use Rattle.std.specs.Prelude.{◌≡◌, ◌≤◌, Ok, IfOk, IfErr, OnOk};
ghost use Rattle.flash_plan.specs.Products.{OfFiles, IsWhole, product_of};
ghost use Rattle.host_driver.specs.Jobs.{folder};
ghost use Rattle.host_top.specs.Acts.{unread_enter, unread_product, unread_verdict, IsEntered, WhyUnread};
ghost use Rattle.host_top.specs.LineParts.{verdict_in};

use crate::verdict::Verdict;
use fb_frame::word::Word;
use flash_plan::dir::{EnterError, ProductDir};
use flash_plan::inspect::inspect;
use flash_plan::product::{Flaw, Product, ProductError};
use std::alloc::Global;

/// Why no product is read.
#[derive(Debug, Drop)]
pub enum Unread {
    Memory,
    /// The folder isn't there, or failed as it was entered.
    Folder,
    /// The folder failed while this file was looked at.
    File(Word),
    /// This file is the first with a flaw.
    Flawed(Word, Flaw),
}

impl From<EnterError> for Unread {
    ghost from_gives = { λ error e. e ≡ unread_enter error };

    fn from(error: EnterError) -> Unread {
        match error {
            EnterError::Dir => Unread::Folder,
            EnterError::Memory => Unread::Memory,
        }
    }
}

impl From<ProductError> for Unread {
    ghost from_gives = { λ error e. e ≡ unread_product error };

    fn from(error: ProductError) -> Unread {
        match error {
            ProductError::Memory => Unread::Memory,
            ProductError::Directory(file) => Unread::File(file),
            ProductError::Bad(file, flaw) => Unread::Flawed(file, flaw),
        }
    }
}

/// Enters the folder of this path.
fn enter<D: ProductDir>(alloc: Global, path: &str, dir: &mut D) -> Result<(), Unread>
    ensures entered { OnOk result (IsEntered path.now
        (folder (D.told_path dir.old) (D.files dir.old) (D.entered dir.old) (D.faults dir.old))
        (folder (D.told_path dir.new) (D.files dir.new) (D.entered dir.new) (D.faults dir.new))) }
    ensures why { (wipe : _) → IfErr result (λ e. WhyUnread path.now wipe
        (folder (D.told_path dir.old) (D.files dir.old) (D.entered dir.old) (D.faults dir.old))
        (folder (D.told_path dir.new) (D.files dir.new) (D.entered dir.new) (D.faults dir.new)) e) }
    ensures path { D.told_path dir.new ≡ D.told_path dir.old }
    ensures files { D.files dir.new ≡ D.files dir.old }
    ensures same { D.lent dir.new ≡ D.lent dir.old }
    ensures later { D.faults dir.old ≤ D.faults dir.new }
{
    if dir.enter(alloc, path)? {
        Ok(())
    } else {
        Err(Unread::Folder)
    }
}

/// Enters the folder of this path and reads its product.
pub(crate) fn open<D: ProductDir>(
    alloc: Global,
    path: &str,
    wipe: bool,
    dir: &mut D,
) -> Result<Product, Unread>
    ensures product { IfOk result (λ p. OfFiles (D.files dir.old) (λ files. product_of files wipe ≡ Ok p)) }
    ensures whole { IfOk result (λ p. IsWhole p) }
    ensures entered { OnOk result (IsEntered path.now
        (folder (D.told_path dir.old) (D.files dir.old) (D.entered dir.old) (D.faults dir.old))
        (folder (D.told_path dir.new) (D.files dir.new) (D.entered dir.new) (D.faults dir.new))) }
    ensures why { IfErr result (λ e. WhyUnread path.now wipe
        (folder (D.told_path dir.old) (D.files dir.old) (D.entered dir.old) (D.faults dir.old))
        (folder (D.told_path dir.new) (D.files dir.new) (D.entered dir.new) (D.faults dir.new)) e) }
    ensures path { D.told_path dir.new ≡ D.told_path dir.old }
    ensures files { D.files dir.new ≡ D.files dir.old }
    ensures same { D.lent dir.new ≡ D.lent dir.old }
    ensures later { D.faults dir.old ≤ D.faults dir.new }
{
    enter(alloc, path, dir)?;
    let product = inspect(alloc, dir, wipe)?;
    Ok(product)
}

/// What the last line tells where no product is read of the folder of this path.
pub(crate) fn unread_verdict<'a>(error: &'a Unread, path: &'a str) -> Verdict<'a>
    ensures { verdict_in result ≡ unread_verdict path.now error.now }
{
    match error {
        Unread::Memory => Verdict::NoMemory,
        Unread::Folder => Verdict::NoFolder(path.as_bytes()),
        Unread::File(file) => Verdict::NoFolder(file.bytes()),
        Unread::Flawed(file, flaw) => Verdict::Flawed(file.bytes(), *flaw),
    }
}

ghost use Rattle.std.specs.Prelude.{◌≡◌, ℕ, ◌+◌, ◌<◌, ◌≤◌, List, [], ◌∷◌, ◌++◌, length, flat_map, Some, None, Ok, Err, IsTrue, IfOk, IfErr, OnOk, OnErr};
ghost use Rattle.std.specs.List.{list_all};
ghost use Rattle.std.specs.Result.{IsErrOf};
ghost use Rattle.fb_frame.specs.Causes.{Rose};
ghost use Rattle.product_info.specs.declared.task.Task.{Task};
ghost use Rattle.dev_model.specs.Repeats.{is_among};
ghost use Rattle.flash_plan.specs.Files.{HasSize, IsFileName, is_file_name};
ghost use Rattle.flash_plan.specs.Products.{Brought, OfFiles, IsWhole, product_of, brought_by, brought_for, tasks_left, image_file, requirements_file, tasks_file, super_file, holds_tables};
ghost use Rattle.flash_plan.specs.Inspecting.{Finds, Stops, FailsAmong, files_of_action, task_files, looked_at, text_in, requirements_in, tasks_in, kept_in, image_in, empty_in, and_image, and_empty, brought_after, Takes, IsGathered};

use crate::dir::{DirFault, ProductDir};
use crate::dir_bytes::DirBytes;
use crate::product::{EmptyImage, Flaw, Product, ProductError};
use crate::read::{ReadError, read_file};
use fb_frame::items::Items;
use fb_frame::memory::Memory;
use fb_frame::word::Word;
use product_info::info::InfoError;
use product_info::requirement::Requirements;
use product_info::requirements::read_requirements;
use product_info::task::{Action, Task, Tasks};
use product_info::tasks::read_tasks;
use sparse_image::index::{CheckError, Index, check};
use std::alloc::Global;
use super_meta::held::tables_flaw;
use super_meta::image::LONGEST;

/// The most bytes of an info file.
const MOST_INFO: usize = 65_536;

/// The most chunks of all images together.
const MOST_CHUNKS: u32 = 4_000_000;

fn requirements_file() -> Word
    ensures file { result ≡ requirements_file }
    ensures name { IsFileName result }
{
    Word::read(b"android-info.txt").unwrap()
}

fn tasks_file() -> Word
    ensures file { result ≡ tasks_file }
    ensures name { IsFileName result }
{
    Word::read(b"fastboot-info.txt").unwrap()
}

fn super_file() -> Word
    ensures file { result ≡ super_file }
    ensures name { IsFileName result }
{
    Word::read(b"super_empty.img").unwrap()
}

/// The bytes of a file, at most so many.
#[tactic(auto, using(crate::proofs::InspectLemmas::texts, crate::proofs::InspectFails::fails))]
fn read_text<D: ProductDir>(
    alloc: Global,
    dir: &mut D,
    file: Word,
    most: usize,
) -> Result<Items<u8>, ProductError>
    requires entered { IsTrue (D.entered dir.old) }
    requires name { IsFileName file }
    ensures found { IfOk result (λ text. Finds (D.files dir.old) (text_in file most) text) }
    ensures short { IfOk result (λ text. length text ≤ most) }
    ensures stops { IfErr result (λ e.
        Stops (D.files dir.old) (text_in file most) (D.faults dir.old) (D.faults dir.new) e) }
    ensures fails { IfErr result (λ e. FailsAmong (file ∷ []) e) }
    ensures entered { D.entered dir.new ≡ D.entered dir.old }
    ensures path { D.told_path dir.new ≡ D.told_path dir.old }
    ensures files { D.files dir.new ≡ D.files dir.old }
    ensures same { D.lent dir.new ≡ D.lent dir.old }
    ensures later { D.faults dir.old ≤ D.faults dir.new }
{
    match read_file(alloc, dir, file.bytes(), most) {
        Ok(text) => Ok(text),
        Err(ReadError::Absent) => Err(ProductError::Bad(file, Flaw::Absent)),
        Err(ReadError::TooLong) => Err(ProductError::Bad(file, Flaw::TooLong)),
        Err(ReadError::Dir) => Err(ProductError::Directory(file)),
        Err(ReadError::Memory) => Err(ProductError::Memory),
    }
}

/// The requirements of android-info.txt.
#[tactic(auto, using(crate::proofs::InspectLemmas::wanted, crate::proofs::InspectFails::fails))]
fn inspect_requirements<D: ProductDir>(
    alloc: Global,
    dir: &mut D,
) -> Result<Requirements, ProductError>
    requires entered { IsTrue (D.entered dir.old) }
    ensures found { IfOk result (λ list. Finds (D.files dir.old) requirements_in list) }
    ensures few { IfOk result (λ list. length list ≤ 256) }
    ensures stops { IfErr result (λ e.
        Stops (D.files dir.old) requirements_in (D.faults dir.old) (D.faults dir.new) e) }
    ensures fails { IfErr result (λ e. FailsAmong (requirements_file ∷ []) e) }
    ensures entered { D.entered dir.new ≡ D.entered dir.old }
    ensures path { D.told_path dir.new ≡ D.told_path dir.old }
    ensures files { D.files dir.new ≡ D.files dir.old }
    ensures same { D.lent dir.new ≡ D.lent dir.old }
    ensures later { D.faults dir.old ≤ D.faults dir.new }
{
    let file = requirements_file();
    let text = read_text(alloc, dir, file, MOST_INFO)?;
    match read_requirements(alloc, text.as_slice()) {
        Ok(list) => Ok(list),
        Err(InfoError::Bad { line, kind }) => {
            Err(ProductError::Bad(file, Flaw::Info { line, kind }))
        }
        Err(InfoError::Memory) => Err(ProductError::Memory),
    }
}

/// All tasks of fastboot-info.txt.
#[tactic(auto, using(crate::proofs::InspectLemmas::listed, crate::proofs::InspectFails::fails))]
fn inspect_tasks<D: ProductDir>(alloc: Global, dir: &mut D) -> Result<Tasks, ProductError>
    requires entered { IsTrue (D.entered dir.old) }
    ensures found { IfOk result (λ list. Finds (D.files dir.old) tasks_in list) }
    ensures few { IfOk result (λ list. length list ≤ 256) }
    ensures names { IfOk result (λ list. IsTrue (list_all is_file_name (flat_map image_file list))) }
    ensures stops { IfErr result (λ e.
        Stops (D.files dir.old) tasks_in (D.faults dir.old) (D.faults dir.new) e) }
    ensures fails { IfErr result (λ e. FailsAmong (tasks_file ∷ []) e) }
    ensures entered { D.entered dir.new ≡ D.entered dir.old }
    ensures path { D.told_path dir.new ≡ D.told_path dir.old }
    ensures files { D.files dir.new ≡ D.files dir.old }
    ensures same { D.lent dir.new ≡ D.lent dir.old }
    ensures later { D.faults dir.old ≤ D.faults dir.new }
{
    let file = tasks_file();
    let text = read_text(alloc, dir, file, MOST_INFO)?;
    match read_tasks(alloc, text.as_slice()) {
        Ok(list) => Ok(list),
        Err(InfoError::Bad { line, kind }) => {
            Err(ProductError::Bad(file, Flaw::Info { line, kind }))
        }
        Err(InfoError::Memory) => Err(ProductError::Memory),
    }
}

/// The tasks of a run that wipes, or those of any run.
fn keep_tasks(tasks: Tasks, wipe: bool) -> Tasks
    ensures { result ≡ tasks_left wipe tasks }
{
    let mut list = tasks.into_vec();
    list.retain(|task| wipe || !task.if_wipe);
    Items::from_vec(list)
}

/// What is kept of an image file of `len` bytes, which is looked at through a window.
#[tactic(auto, using(crate::proofs::InspectImages::checks, crate::proofs::InspectFails::fails))]
fn check_image<D: ProductDir>(
    alloc: Global,
    dir: &mut D,
    file: Word,
    len: u64,
) -> Result<Index, ProductError>
    requires entered { IsTrue (D.entered dir.old) }
    requires name { IsFileName file }
    requires size { HasSize (D.files dir.old) file (Some len) }
    ensures found { IfOk result (λ index. Finds (D.files dir.old) (kept_in file) index) }
    ensures few { IfOk result (λ index. length index.chunks ≤ 1000000) }
    ensures stops { IfErr result (λ e.
        Stops (D.files dir.old) (kept_in file) (D.faults dir.old) (D.faults dir.new) e) }
    ensures fails { IfErr result (λ e. FailsAmong (file ∷ []) e) }
    ensures entered { D.entered dir.new ≡ D.entered dir.old }
    ensures path { D.told_path dir.new ≡ D.told_path dir.old }
    ensures files { D.files dir.new ≡ D.files dir.old }
    ensures same { D.lent dir.new ≡ D.lent dir.old }
    ensures later { D.faults dir.old ≤ D.faults dir.new }
{
    let mut source = DirBytes::new(dir, &file, len);
    match check(alloc, &mut source) {
        Ok(index) => Ok(index),
        Err(CheckError::Bad(flaw)) => Err(ProductError::Bad(file, Flaw::Image(flaw))),
        Err(CheckError::Read) => Err(ProductError::Directory(file)),
        Err(CheckError::Memory) => Err(ProductError::Memory),
    }
}

/// What is kept of an image, unless with it the chunks of all images pass their limit.
fn within_limit(file: Word, chunks: u32, index: Index) -> Result<Index, ProductError>
    requires few { chunks ≤ 4000000 }
    ensures kept { IfOk result (λ kept. kept ≡ index) }
    ensures few { IfOk result (λ kept. chunks + length kept.chunks ≤ 4000000) }
    ensures bad { IfErr result (λ e. e ≡ ProductError.Bad file Flaw.TooManyChunks) }
    ensures many { OnErr result (4000000 < chunks + length index.chunks) }
{
    if chunks + index.chunks() > MOST_CHUNKS {
        return Err(ProductError::Bad(file, Flaw::TooManyChunks));
    }
    Ok(index)
}

/// What is kept of an image after others with so many chunks.
#[tactic(auto, using(crate::proofs::InspectImages::images, crate::proofs::InspectFails::fails))]
fn inspect_image<D: ProductDir>(
    alloc: Global,
    dir: &mut D,
    file: Word,
    chunks: u32,
) -> Result<Index, ProductError>
    requires entered { IsTrue (D.entered dir.old) }
    requires name { IsFileName file }
    requires few { chunks ≤ 4000000 }
    ensures found { IfOk result (λ index. Finds (D.files dir.old) (image_in file chunks) index) }
    ensures few { IfOk result (λ index. chunks + length index.chunks ≤ 4000000) }
    ensures stops { IfErr result (λ e.
        Stops (D.files dir.old) (image_in file chunks) (D.faults dir.old) (D.faults dir.new) e) }
    ensures fails { IfErr result (λ e. FailsAmong (file ∷ []) e) }
    ensures entered { D.entered dir.new ≡ D.entered dir.old }
    ensures path { D.told_path dir.new ≡ D.told_path dir.old }
    ensures files { D.files dir.new ≡ D.files dir.old }
    ensures same { D.lent dir.new ≡ D.lent dir.old }
    ensures later { D.faults dir.old ≤ D.faults dir.new }
{
    let len = match dir.size(file.bytes()) {
        Ok(Some(len)) => len,
        Ok(None) => return Err(ProductError::Bad(file, Flaw::Absent)),
        Err(DirFault) => return Err(ProductError::Directory(file)),
    };
    let checked = check_image(alloc, dir, file, len)?;
    let index = within_limit(file, chunks, checked)?;
    Ok(index)
}

/// The bytes of super_empty.img, which holds tables.
#[tactic(auto, using(crate::proofs::InspectImages::empties, crate::proofs::InspectFails::fails))]
fn inspect_empty<D: ProductDir>(alloc: Global, dir: &mut D) -> Result<EmptyImage, ProductError>
    requires entered { IsTrue (D.entered dir.old) }
    ensures found { IfOk result (λ file. Finds (D.files dir.old) empty_in file) }
    ensures tables { IfOk result (λ file. IsTrue (holds_tables file)) }
    ensures stops { IfErr result (λ e.
        Stops (D.files dir.old) empty_in (D.faults dir.old) (D.faults dir.new) e) }
    ensures fails { IfErr result (λ e. FailsAmong (super_file ∷ []) e) }
    ensures entered { D.entered dir.new ≡ D.entered dir.old }
    ensures path { D.told_path dir.new ≡ D.told_path dir.old }
    ensures files { D.files dir.new ≡ D.files dir.old }
    ensures same { D.lent dir.new ≡ D.lent dir.old }
    ensures later { D.faults dir.old ≤ D.faults dir.new }
{
    let file = super_file();
    let bytes = read_text(alloc, dir, file, LONGEST)?;
    match tables_flaw(alloc, bytes.as_slice()) {
        Ok(None) => Ok(bytes),
        Ok(Some(flaw)) => Err(ProductError::Bad(file, Flaw::Meta(flaw))),
        Err(Memory) => Err(ProductError::Memory),
    }
}

/// What the tasks so far bring, and how many chunks the images have together.
#[derive(Debug, Drop)]
pub(crate) struct Gathered {
    images: Items<Index>,
    chunks: u32,
    empty: Option<EmptyImage>,
}

impl Gathered {
    /// Adds an image.
    fn add_image(&mut self, index: Index) -> Result<(), ProductError>
        requires few { self.old.chunks + length index.chunks ≤ 4000000 }
        ensures image { OnOk result (self.new ≡ and_image self.old index) }
        ensures memory { IfErr result (λ e. e ≡ ProductError.Memory) }
    {
        self.chunks += index.chunks();
        self.images.push(index).map_err(|_| ProductError::Memory)?;
        Ok(())
    }

    /// Adds super_empty.img, unless it is there.
    fn add_empty(&mut self, file: EmptyImage)
        ensures { self.new ≡ and_empty self.old file }
    {
        if self.empty.is_none() {
            self.empty = Some(file);
        }
    }

    /// Adds the file of a task.
    #[tactic(auto, using(crate::proofs::InspectTasks::takes, crate::proofs::InspectFails::fails))]
    fn take_task<D: ProductDir>(
        &mut self,
        alloc: Global,
        dir: &mut D,
        task: &Task,
    ) -> Result<(), ProductError>
        requires entered { IsTrue (D.entered dir.old) }
        requires names { IsTrue (list_all is_file_name (image_file task.now)) }
        requires few { self.old.chunks ≤ 4000000 }
        ensures taken { OnOk result (Takes (D.files dir.old) task.now.action self.old self.new) }
        ensures gathered { OnOk result ((tasks : List Task) → IsGathered tasks self.old
            → IsGathered (tasks ++ task.now ∷ []) self.new) }
        ensures stops { (later : _) → IfErr result (λ e. Stops (D.files dir.old)
            (brought_after self.old task.now.action later) (D.faults dir.old) (D.faults dir.new) e) }
        ensures fails { IfErr result (λ e. FailsAmong (files_of_action task.now.action) e) }
        ensures entered { D.entered dir.new ≡ D.entered dir.old }
        ensures path { D.told_path dir.new ≡ D.told_path dir.old }
        ensures files { D.files dir.new ≡ D.files dir.old }
        ensures same { D.lent dir.new ≡ D.lent dir.old }
        ensures later { D.faults dir.old ≤ D.faults dir.new }
    {
        match task.action {
            Action::Flash { file, .. } => {
                let index = inspect_image(alloc, dir, file, self.chunks)?;
                self.add_image(index)?;
                Ok(())
            }
            Action::UpdateSuper => {
                let file = inspect_empty(alloc, dir)?;
                self.add_empty(file);
                Ok(())
            }
            Action::Reboot(_) | Action::Erase(_) => Ok(()),
        }
    }
}

/// What the files of the tasks bring.
#[tactic(auto, using(crate::proofs::InspectTasks::loops))]
fn gather<D: ProductDir>(
    alloc: Global,
    dir: &mut D,
    tasks: &[Task],
) -> Result<Gathered, ProductError>
    requires entered { IsTrue (D.entered dir.old) }
    requires names { IsTrue (list_all is_file_name (flat_map image_file tasks.now)) }
    ensures found { IfOk result (λ gathered. Finds (D.files dir.old) (λ files. brought_by files 0 tasks.now)
        (record { images = gathered.images; empty = gathered.empty })) }
    ensures gathered { IfOk result (λ gathered. IsGathered tasks.now gathered) }
    ensures stops { IfErr result (λ e. Stops (D.files dir.old) (λ files. brought_by files 0 tasks.now)
        (D.faults dir.old) (D.faults dir.new) e) }
    ensures fails { IfErr result (λ e. FailsAmong (task_files tasks.now) e) }
    ensures entered { D.entered dir.new ≡ D.entered dir.old }
    ensures path { D.told_path dir.new ≡ D.told_path dir.old }
    ensures files { D.files dir.new ≡ D.files dir.old }
    ensures same { D.lent dir.new ≡ D.lent dir.old }
    ensures later { D.faults dir.old ≤ D.faults dir.new }
{
    let mut gathered = Gathered {
        images: Items::new(alloc),
        chunks: 0,
        empty: None,
    };
    for task in tasks {
        gathered.take_task(alloc, dir, task)?;
    }
    Ok(gathered)
}

/// What the folder holds for a device.
#[tactic(auto, using(crate::proofs::InspectTasks::folders))]
fn inspect_folder<D: ProductDir>(
    alloc: Global,
    dir: &mut D,
    wipe: bool,
) -> Result<Product, ProductError>
    requires entered { IsTrue (D.entered dir.old) }
    ensures found { IfOk result (λ p. Finds (D.files dir.old) (λ files. product_of files wipe) p) }
    ensures whole { IfOk result (λ p. IsWhole p) }
    ensures stops { IfErr result (λ e. Stops (D.files dir.old) (λ files. product_of files wipe)
        (D.faults dir.old) (D.faults dir.new) e) }
    ensures fails { IfErr result (λ e.
        OfFiles (D.files dir.old) (λ files. FailsAmong (looked_at wipe files) e)) }
    ensures entered { D.entered dir.new ≡ D.entered dir.old }
    ensures path { D.told_path dir.new ≡ D.told_path dir.old }
    ensures files { D.files dir.new ≡ D.files dir.old }
    ensures same { D.lent dir.new ≡ D.lent dir.old }
    ensures later { D.faults dir.old ≤ D.faults dir.new }
{
    let requirements = inspect_requirements(alloc, dir)?;
    let all = inspect_tasks(alloc, dir)?;
    let tasks = keep_tasks(all, wipe);
    let gathered = gather(alloc, dir, tasks.as_slice())?;
    let Gathered { images, empty, .. } = gathered;
    Ok(Product {
        requirements,
        tasks,
        images,
        empty,
    })
}

/// Inspects the folder: android-info.txt, fastboot-info.txt, and then the files of its tasks in their
/// order, images through a window. Tasks for a run that wipes are left out of a run that doesn't, and
/// their files aren't looked at.
#[tactic(auto, using(crate::proofs::InspectTasks::answers, crate::proofs::InspectFails::names))]
pub fn inspect<D: ProductDir>(
    alloc: Global,
    dir: &mut D,
    wipe: bool,
) -> Result<Product, ProductError>
    requires entered { IsTrue (D.entered dir.old) }
    ensures product { IfOk result
        (λ p. OfFiles (D.files dir.old) (λ files. product_of files wipe ≡ Ok p)) }
    ensures whole { IfOk result (λ p. IsWhole p) }
    ensures bad { (file : _) (flaw : _) → IsErrOf result (ProductError.Bad file flaw)
        → OfFiles (D.files dir.old) (λ files. product_of files wipe ≡ Err (file, flaw)) }
    ensures directory { (file : _) → IsErrOf result (ProductError.Directory file)
        → Rose (D.faults dir.old) (D.faults dir.new) }
    ensures looked { (file : _) → IsErrOf result (ProductError.Directory file)
        → OfFiles (D.files dir.old) (λ files. IsTrue (is_among (looked_at wipe files) file)) }
    ensures entered { D.entered dir.new ≡ D.entered dir.old }
    ensures path { D.told_path dir.new ≡ D.told_path dir.old }
    ensures files { D.files dir.new ≡ D.files dir.old }
    ensures same { D.lent dir.new ≡ D.lent dir.old }
    ensures later { D.faults dir.old ≤ D.faults dir.new }
{
    inspect_folder(alloc, dir, wipe)
}

ghost use Rattle.std.specs.Prelude.{◌≡◌, ◌≢◌, Err, IsFalse};

use dev_disk::memory::MemoryDisk;
use dev_store::errors::{OpenError, StoreError};
use dev_store::state::State;
use dev_store::store::Store;
use fb_frame::name::Name;
use std::alloc::Global;

/// A store that may be used.
#[derive(Drop)]
pub struct OpenStore {
    store: Store<MemoryDisk>,
    ghost usable: { IsFalse store.broken },
}

/// What a call leaves: a store that may be used, or the disk of one that may not.
pub enum After {
    Open(OpenStore),
    Closed(MemoryDisk),
}

/// What a call answers and leaves.
pub type Outcome = (Result<(), StoreError>, After);

/// What a call leaves of a store.
fn ended(store: Store<MemoryDisk>, answer: Result<(), StoreError>) -> Outcome
    requires usable { answer ≢ Err StoreError.Disk → IsFalse store.broken }
{
    match answer {
        Ok(()) => (Ok(()), After::Open(OpenStore { store })),
        Err(StoreError::Disk) => (Err(StoreError::Disk), After::Closed(store.into_disk())),
        Err(error) => (Err(error), After::Open(OpenStore { store })),
    }
}

impl OpenStore {
    /// Opens the image of a path.
    pub fn open(
        alloc: Global,
        disk: MemoryDisk,
        path: &str,
    ) -> Result<OpenStore, (MemoryDisk, OpenError)> {
        match Store::open(alloc, disk, path) {
            Ok(store) => Ok(OpenStore { store }),
            Err(e) => Err(e),
        }
    }

    /// The store, to ask it.
    pub fn store(&self) -> &Store<MemoryDisk> {
        &self.store
    }

    /// Closes the store.
    pub fn close(self) -> MemoryDisk {
        self.store.into_disk()
    }

    /// Reads bytes of a partition. A fault of the disk leaves the store usable.
    pub fn read(
        self,
        name: &Name,
        at: u64,
        bytes: &mut [u8],
    ) -> (Result<(), StoreError>, OpenStore) {
        let mut store = self.store;
        let answer = store.read_part(name, at, bytes);
        (answer, OpenStore { store })
    }

    /// Writes bytes of a partition.
    pub fn write(self, name: &Name, at: u64, bytes: &[u8]) -> Outcome {
        let mut store = self.store;
        let answer = store.write_part(name, at, bytes);
        ended(store, answer)
    }

    /// Fills bytes of a partition. The store is handed back where place or length is no multiple of four.
    pub fn fill(
        self,
        name: &Name,
        at: u64,
        length: u64,
        pattern: u32,
    ) -> Result<Outcome, OpenStore> {
        let mut store = self.store;
        if at % 4 != 0 || length % 4 != 0 {
            return Err(OpenStore { store });
        }
        let answer = store.fill_part(name, at, length, pattern.to_le_bytes());
        Ok(ended(store, answer))
    }

    /// Makes a logical partition.
    pub fn create(self, name: &Name, size: u64) -> Outcome {
        let mut store = self.store;
        let answer = store.create(name, size);
        ended(store, answer)
    }

    /// Gives a logical partition another length.
    pub fn resize(self, name: &Name, size: u64) -> Outcome {
        let mut store = self.store;
        let answer = store.resize(name, size);
        ended(store, answer)
    }

    /// Takes a logical partition away.
    pub fn delete(self, name: &Name) -> Outcome {
        let mut store = self.store;
        let answer = store.delete(name);
        ended(store, answer)
    }

    /// Installs the table of a file.
    pub fn install(self, file: &[u8], wipe: bool) -> Outcome {
        let mut store = self.store;
        let answer = store.install_table(file, wipe);
        ended(store, answer)
    }

    /// Stores another state. The store is handed back where the device can't have it.
    pub fn set_state(self, state: &State) -> Result<Outcome, OpenStore> {
        let mut store = self.store;
        if !state.fits(store.slots()) {
            return Err(OpenStore { store });
        }
        let answer = store.set_state(state);
        Ok(ended(store, answer))
    }

    /// Waits until what was written is kept.
    pub fn sync(self) -> Outcome {
        let mut store = self.store;
        let answer = store.sync();
        ended(store, answer)
    }
}

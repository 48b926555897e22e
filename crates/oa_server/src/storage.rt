//! The storage of a server's table.
ghost use Rattle.std.specs.Prelude.{◌≡◌};
ghost use Rattle.oa_server.specs.promise.Storages.{disk_of};

use oa_disk::Disk;
use oa_store::Store;

/// The storage of a server's table, besides its memory.
#[derive(Drop)]
pub(crate) enum Storage<D: Disk> {
    /// None: no call of this disk is made.
    Memory(D),
    /// A store, to which each group of changes is committed.
    Disk(Store<D>),
}

impl<D: Disk> Storage<D> {
    /// Returns the disk. Makes no call of it.
    pub(crate) fn disk(&self) -> &D
        ensures { result.now ≡ disk_of self.now }
    {
        match self {
            Storage::Memory(disk) => disk,
            Storage::Disk(store) => store.disk(),
        }
    }

    /// Closes it and returns the disk. Makes no call of it.
    pub(crate) fn into_disk(self) -> D
        ensures { result ≡ disk_of self }
    {
        match self {
            Storage::Memory(disk) => disk,
            Storage::Disk(store) => store.into_disk(),
        }
    }
}

//! The disk of a server without a store.
ghost use Rattle.std.specs.Prelude.{◌≡◌, [], true, refl};
ghost use Rattle.oa_disk.specs.Counting.{none_below};
ghost use Rattle.oa_disk.specs.Replaying.{no_bytes};

use crate::{DeviceFault, Disk};

/// A disk of no bytes. Each call succeeds and does nothing.
#[derive(Clone, Copy, Debug, PartialEq, Eq)]
pub struct NoDisk;

impl NoDisk {
    ghost use Rattle.oa_disk.specs.After.{BeginsHonest};

    /// Returns the disk of no bytes, which is honest. There is only one.
    pub fn new() -> NoDisk
        ensures size { ⟦<NoDisk as Disk>⟧.size_of result ≡ 0 }
        ensures begins { BeginsHonest ⟦<NoDisk as Disk>⟧ result }
    {
        NoDisk
    }
}

impl Disk for NoDisk {
    ghost size_of = { λ _. 0 };

    ghost failures_of = { λ _. 0 };

    ghost is_honest = { λ _. true };

    ghost contents = { λ _. [] };

    ghost image = { λ _ c. c ≡ [] };

    ghost moment = { λ _. 0 };

    ghost image_since = { λ _ _ c. c ≡ [] };

    ghost failures_fit = { λ _. none_below };

    ghost contents_is_image = { λ _ _. refl };

    ghost images_have_size = { λ _ c _ is. no_bytes c is };

    ghost since_have_size = { λ _ _ c _ is. no_bytes c is };

    ghost counts_now = { λ _ _ _ _ _ is. is };

    ghost since_falls = { λ _ _ _ _ _ _ is. is };

    ghost only_now = { λ _ _ _ is. is };

    fn size(&self) -> u64 {
        0
    }

    fn failures(&self) -> u64 {
        0
    }

    fn read_at(&mut self, _at: u64, _bytes: &mut [u8]) -> Result<(), DeviceFault> {
        Ok(())
    }

    fn write_at(&mut self, _at: u64, _bytes: &[u8]) -> Result<(), DeviceFault> {
        Ok(())
    }

    fn sync(&mut self) -> Result<(), DeviceFault> {
        Ok(())
    }
}

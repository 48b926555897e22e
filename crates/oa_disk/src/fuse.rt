//! A disk that fails from some call on.
ghost use Rattle.std.specs.Prelude.{◌≡◌, ◌+◌, ◌-◌, ◌^◌, ◌<◌, ◌≤◌, ◌↔◌, List, ℕ, length, IsTrue, OnOk, OnErr, IfErr, IsErr};
ghost use Rattle.oa_disk.specs.Counting.{min_below};
ghost use Rattle.oa_disk.specs.promise.Disk.{CountsFailures, FailsAs, Torn, WritesUnsynced, Syncs, TakesTime};
ghost use Rattle.oa_disk.specs.Disk.{HasBytesAt, ReadsHonestly, Reaches, Stays};
ghost use Rattle.oa_disk.specs.Fuse.{failures_with};

use crate::{DeviceFault, Disk};

/// A disk that passes a number of calls on to another disk, and then fails every call without
/// passing it on.
#[derive(Drop)]
pub struct FuseDisk<D: Disk> {
    disk: D,
    calls_left: u64,
    refused: u64,
}

/// Counts one call. Err: no call is left; the given fault is returned, and a refused call is
/// counted.
fn spend(calls_left: &mut u64, refused: &mut u64, fault: DeviceFault) -> Result<(), DeviceFault>
    ensures blown { IsErr result ↔ (calls_left.old ≡ 0) }
    ensures spent { calls_left.new ≡ calls_left.old - 1 }
    ensures kind { IfErr result (λ e. e ≡ fault) }
    ensures same { OnOk result (refused.new ≡ refused.old) }
    ensures counts { CountsFailures refused.old refused.new result }
{
    if *calls_left == 0 {
        *refused = refused.saturating_add(1);
        return Err(fault);
    }
    *calls_left -= 1;
    Ok(())
}

impl<D: Disk> FuseDisk<D> {
    ghost use Rattle.oa_disk.specs.promise.Fuse.{inner_of, calls_left_of};
    ghost use Rattle.oa_disk.specs.Fuse.{refused_of, ShowsAllOf};

    /// Makes a disk that passes on the calls before call number `first_failing`, and fails each one
    /// from there on. Reads, writes and syncs are calls, numbered from 1. The new disk is as honest
    /// as `disk`, and has its contents, images and failures.
    pub fn new(disk: D, first_failing: u64) -> FuseDisk<D>
        ensures disk { inner_of result ≡ disk }
        ensures calls { calls_left_of result ≡ first_failing - 1 }
        ensures refused { refused_of result ≡ 0 }
        ensures shows { ShowsAllOf D.Disk ⟦<FuseDisk<D> as Disk>⟧ disk result }
    {
        FuseDisk {
            disk,
            calls_left: first_failing.saturating_sub(1),
            refused: 0,
        }
    }

    /// Returns the disk that the calls were passed on to.
    pub fn into_inner(self) -> D
        ensures { result ≡ inner_of self }
    {
        let FuseDisk {
            disk,
            calls_left: _,
            refused: _,
        } = self;
        disk
    }
}

/// Each call has the clauses of the trait, and one more. While calls are left, each takes one of
/// them and is passed on once, so the inner clock advances by at most two. After that, a call fails
/// and the inner disk does not change.
impl<D: Disk> Disk for FuseDisk<D> {
    ghost use Rattle.oa_disk.specs.Fuse.{KeepsKind, SpendsFuse};

    ghost size_of = { λ f. D.size_of f.disk };

    ghost failures_of = { failures_with D.failures_of };

    ghost is_honest = { λ f. D.is_honest f.disk };

    ghost contents = { λ f. D.contents f.disk };

    ghost image = { λ f. D.image f.disk };

    ghost moment = { λ f. D.moment f.disk };

    ghost image_since = { λ f. D.image_since f.disk };

    ghost failures_fit = { λ f. min_below (D.failures_of f.disk + f.refused) (2 ^ 64 - 1) };

    ghost contents_is_image = { λ f. D.contents_is_image f.disk };

    ghost images_have_size = { λ f. D.images_have_size f.disk };

    ghost since_have_size = { λ f. D.since_have_size f.disk };

    ghost counts_now = { λ f. D.counts_now f.disk };

    ghost since_falls = { λ f. D.since_falls f.disk };

    ghost only_now = { λ f. D.only_now f.disk };

    fn size(&self) -> u64 {
        self.disk.size()
    }

    fn failures(&self) -> u64 {
        self.disk.failures().saturating_add(self.refused)
    }

    fn read_at(&mut self, at: u64, bytes: &mut [u8]) -> Result<(), DeviceFault>
        requires { at + length bytes.old ≤ D.size_of self.old.disk }
        ensures spends { SpendsFuse self.old self.new result }
        ensures read { OnOk result (IsTrue (D.is_honest self.new.disk) → HasBytesAt (D.contents self.old.disk) at bytes.new) }
        ensures stays { IsTrue (D.is_honest self.old.disk)
            → Stays (D.contents self.old.disk) (D.contents self.new.disk) (D.image self.old.disk) (D.image self.new.disk) }
        ensures time { IsTrue (D.is_honest self.old.disk) → TakesTime D.moment D.image_since D.image self.old.disk self.new.disk }
        ensures size { D.size_of self.new.disk ≡ D.size_of self.old.disk }
        ensures honest { ReadsHonestly (D.contents self.old.disk) at bytes.new (D.is_honest self.old.disk) (D.is_honest self.new.disk) result }
        ensures fails { FailsAs DeviceFault.Read (failures_with D.failures_of self.old) (failures_with D.failures_of self.new) result }
    {
        spend(&mut self.calls_left, &mut self.refused, DeviceFault::Read)?;
        self.disk.read_at(at, bytes)
    }

    fn write_at(&mut self, at: u64, bytes: &[u8]) -> Result<(), DeviceFault>
        requires { at + length bytes.now ≤ D.size_of self.old.disk }
        ensures spends { SpendsFuse self.old self.new result }
        ensures written { OnOk result (IsTrue (D.is_honest self.old.disk) → HasBytesAt (D.contents self.new.disk) at bytes.now) }
        ensures writes { IsTrue (D.is_honest self.old.disk)
            → WritesUnsynced at (length bytes.now) (D.contents self.old.disk) (D.contents self.new.disk) (D.image self.old.disk)
            (D.image self.new.disk) }
        ensures any_bytes { OnOk result (IsTrue (D.is_honest self.old.disk)
            → Reaches (Torn at (length bytes.now)) (D.image self.old.disk) (D.image self.new.disk)) }
        ensures time { IsTrue (D.is_honest self.old.disk) → TakesTime D.moment D.image_since D.image self.old.disk self.new.disk }
        ensures same { KeepsKind D.size_of D.is_honest self.old.disk self.new.disk }
        ensures fails { FailsAs DeviceFault.Write (failures_with D.failures_of self.old) (failures_with D.failures_of self.new) result }
    {
        spend(&mut self.calls_left, &mut self.refused, DeviceFault::Write)?;
        self.disk.write_at(at, bytes)
    }

    fn sync(&mut self) -> Result<(), DeviceFault>
        ensures spends { SpendsFuse self.old self.new result }
        ensures syncs { OnOk result (IsTrue (D.is_honest self.old.disk)
            → Syncs (D.contents self.old.disk) (D.contents self.new.disk) (D.image self.new.disk)) }
        ensures images { IsTrue (D.is_honest self.old.disk) → (c : List ℕ) → D.image self.new.disk c → D.image self.old.disk c }
        ensures stay { OnErr result (IsTrue (D.is_honest self.old.disk) → (c : List ℕ) → D.image self.old.disk c
            → D.image self.new.disk c) }
        ensures time { IsTrue (D.is_honest self.old.disk) → TakesTime D.moment D.image_since D.image self.old.disk self.new.disk }
        ensures same { KeepsKind D.size_of D.is_honest self.old.disk self.new.disk }
        ensures fails { FailsAs DeviceFault.Write (failures_with D.failures_of self.old) (failures_with D.failures_of self.new) result }
    {
        spend(&mut self.calls_left, &mut self.refused, DeviceFault::Write)?;
        self.disk.sync()
    }
}

//! Standard streams: writing to standard output, and replacing closed ones.
ghost use Rattle.std.specs.Prelude.{◌≡◌, IfErr};
ghost use Rattle.oa_commands.specs.declared.fault.Fault.TheVariants as faults;

use crate::fault::Fault;
use oa_disk::FileDisk;
use oa_stream::{Sink, StdSink};
use std::fs::File;
use std::io;

/// Writes all of these bytes to standard output, and flushes. Err: `Write`.
fn write(rt: &HostRuntime, bytes: &[u8]) -> Result<(), Fault>
    ensures { IfErr result (λ fault. fault ≡ faults.Write) }
{
    let mut writer = StdSink::new(io::writer(rt));
    writer.put(bytes)?;
    writer.deliver()?;
    Ok(())
}

/// Closes the store's file, and then prints `line`: whoever reads the line finds the file unlocked.
/// Err: `Write` if standard output failed.
pub fn tell(rt: &HostRuntime, disk: FileDisk, line: &[u8]) -> Result<(), Fault>
    ensures { IfErr result (λ fault. fault ≡ faults.Write) }
{
    drop(disk);
    write(rt, line)
}

/// Replacements of closed standard streams, as long as this value exists. Without them the next
/// opened file would get the number of a closed stream, and would be read as requests or
/// overwritten by replies. So whatever opens the file of a store requires this value. A folder can
/// be neither read nor written, so a closed stream still fails.
#[derive(Drop)]
pub struct StandardStreams {
    input: Option<File>,
    output: Option<File>,
    errors: Option<File>,
}

impl StandardStreams {
    /// Occupies closed standard streams (descriptors 0 to 2) as long as the result exists, so that
    /// no store's file gets their numbers. It opens the root folder three times: files get the
    /// lowest free numbers.
    pub fn fill_closed(rt: &HostRuntime) -> StandardStreams {
        StandardStreams {
            input: File::open(rt, "/").ok(),
            output: File::open(rt, "/").ok(),
            errors: File::open(rt, "/").ok(),
        }
    }
}

//! Sessions over standard input and output.
ghost use Rattle.std.specs.Prelude.{◌≤◌};
ghost use Rattle.oa_model.specs.Limits.{max_group};
ghost use Rattle.oa_stream.specs.BufferedSource.{ahead};
ghost use Rattle.oaut.specs.Sessions.{Holds, ServesClient, ServesManyClients, framing_of};

use oa_commands::{Fault, client_ended, clients_ended};
use oa_disk::Disk;
use oa_model::MAX_LINE_CHARACTERS;
use oa_server::Server;
use oa_stream::{BufferedSink, BufferedSource, Sink, Source, StdSink, StdSource};
use std::alloc::{AllocError, Global};
use std::io::{self, Printer, StdinLock};

/// The reader of standard input.
pub(crate) type StandardInput = StdSource<StdinLock<'static>>;

/// The writer of standard output.
pub(crate) type StandardOutput<'a> = BufferedSink<StdSink<Printer<'a, HostRuntime>>>;

/// Answers the requests of standard input on standard output until the input ends or is invalid:
/// lines of hexadecimal digits if `hex`, otherwise records. The changes of up to `group` requests
/// are committed together (1 to 1,024). Err: the session ended by a fault, or an allocation failed
/// before it.
pub(crate) fn hold<D: Disk + Drop>(
    rt: &HostRuntime,
    server: &mut Server<D>,
    group: usize,
    hex: bool,
) -> Result<(), Fault>
    requires positive { 1 ≤ group }
    requires small { group ≤ max_group }
    ensures session { Holds (ahead ⟦<StandardInput as Source>⟧.input) ⟦<StandardOutput<'static> as Sink>⟧.out
        (ServesClient (framing_of hex) group result) result server.old.engine server.new.engine }
{
    let alloc = rt.alloc();
    keep_long_blocks(alloc)?;
    let mut reader = BufferedSource::new(alloc, StdSource::new(rt.reader()))?;
    let mut writer = BufferedSink::new(alloc, StdSink::new(io::writer(rt)))?;
    if hex {
        return client_ended(server.serve_hex(&mut reader, &mut writer, group)?.why);
    }
    client_ended(server.serve(&mut reader, &mut writer, group)?.why)
}

/// Answers the frames of many clients of standard input on standard output until the input ends or
/// a frame's head is invalid. The changes of up to `group` requests of any clients are committed
/// together (1 to 1,024). Err: the session ended by a fault, or an allocation failed before it.
pub(crate) fn hold_shared<D: Disk + Drop>(
    rt: &HostRuntime,
    server: &mut Server<D>,
    group: usize,
) -> Result<(), Fault>
    requires positive { 1 ≤ group }
    requires small { group ≤ max_group }
    ensures session { Holds (ahead ⟦<StandardInput as Source>⟧.input) ⟦<StandardOutput<'static> as Sink>⟧.out
        (ServesManyClients group result) result server.old.engine server.new.engine }
{
    let alloc = rt.alloc();
    keep_long_blocks(alloc)?;
    let mut reader = BufferedSource::new(alloc, StdSource::new(rt.reader()))?;
    let mut writer = BufferedSink::new(alloc, StdSink::new(io::writer(rt)))?;
    clients_ended(server.serve_shared(&mut reader, &mut writer, group)?)
}

/// Allocates a block as long as the longest line and frees it, untouched. From then on the C
/// library keeps the freed blocks of long texts. Otherwise it would get each of them anew from the
/// system, page by page (mallopt(3), M_MMAP_THRESHOLD). Err: the allocation failed.
fn keep_long_blocks(alloc: Global) -> Result<(), AllocError> {
    let block: Vec<u8> = Vec::with_capacity(alloc, MAX_LINE_CHARACTERS as usize)?;
    drop(block);
    Ok(())
}

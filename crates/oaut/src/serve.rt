//! Serving the objects of a store.
ghost use Rattle.std.specs.Prelude.{IfErr, IfOk};
ghost use Rattle.oa_stream.specs.BufferedSource.{ahead};
ghost use Rattle.oaut.specs.Sessions.{HasServed, HasServedShared, IsOfNoStore, OpensStore, group_near};

use crate::session::{StandardInput, StandardOutput, hold, hold_shared};
use oa_commands::{Fault, STANDARD_INPUT, StandardStreams, open_store_file, read_library_file};
use oa_disk::{Disk, FileDisk};
use oa_model::MAX_GROUP;
use oa_server::Server;
use oa_stream::{Sink, Source};

/// Serves a session over the store in the file `store` with the library in the file `library`:
/// lines of hexadecimal digits if `hex`, otherwise records. Up to `group` requests are committed
/// together (1 to 1,024). Err: `TwoInputs` if `library` is standard input; library or store was not
/// opened; the session ended by a fault.
pub(crate) fn serve(
    rt: &HostRuntime,
    store: &str,
    library: &str,
    group: u32,
    hex: bool,
) -> Result<(), Fault>
    ensures { HasServed ⟦<FileDisk as Disk>⟧ (ahead ⟦<StandardInput as Source>⟧.input)
        ⟦<StandardOutput<'static> as Sink>⟧.out hex (group_near group) result }
{
    if library == STANDARD_INPUT {
        return Err(Fault::TwoInputs);
    }
    let streams = StandardStreams::fill_closed(rt);
    let mut server = opened(rt, &streams, store, library)?;
    hold(rt, &mut server, (group as usize).clamp(1, MAX_GROUP), hex)
}

/// Serves a session of many clients over the store in the file `store` with the library in the file
/// `library`. Up to `group` requests of any clients are committed together (1 to 1,024). Errors are
/// those of `serve`.
pub(crate) fn serve_shared(
    rt: &HostRuntime,
    store: &str,
    library: &str,
    group: u32,
) -> Result<(), Fault>
    ensures { HasServedShared ⟦<FileDisk as Disk>⟧ (ahead ⟦<StandardInput as Source>⟧.input)
        ⟦<StandardOutput<'static> as Sink>⟧.out (group_near group) result }
{
    if library == STANDARD_INPUT {
        return Err(Fault::TwoInputs);
    }
    let streams = StandardStreams::fill_closed(rt);
    let mut server = opened(rt, &streams, store, library)?;
    hold_shared(rt, &mut server, (group as usize).clamp(1, MAX_GROUP))
}

/// Opens a server over the store in the file `store` with the library in the file `library`. Err:
/// the first of the two that was not read or opened.
fn opened(
    rt: &HostRuntime,
    streams: &StandardStreams,
    store: &str,
    library: &str,
) -> Result<Server<FileDisk>, Fault>
    ensures opened { IfOk result (λ server. OpensStore ⟦<FileDisk as Disk>⟧ server.engine.storage server.engine.host) }
    ensures refused { IfErr result IsOfNoStore }
{
    let alloc = rt.alloc();
    let library = read_library_file(rt, alloc, library)?;
    let disk = open_store_file(rt, streams, alloc, store)?;
    match Server::open(alloc, disk, library) {
        Ok(server) => Ok(server),
        Err((_, fault)) => Err(Fault::from(fault)),
    }
}

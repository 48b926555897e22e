//! Serving objects in memory.
ghost use Rattle.oa_stream.specs.BufferedSource.{ahead};
ghost use Rattle.oaut.specs.Sessions.{HasPlayedShared, IsPlaySession};

use crate::session::{StandardInput, StandardOutput, hold, hold_shared};
use oa_commands::{Fault, STANDARD_INPUT, read_library_file};
use oa_disk::{Disk, NoDisk};
use oa_server::Server;
use oa_stream::{Sink, Source};

/// Serves a session over the library in the file `path`, with objects in memory: lines of
/// hexadecimal digits if `hex`, otherwise records. Err: `TwoInputs` if `path` is standard input;
/// the library was not read; the session ended by a fault.
pub(crate) fn play(rt: &HostRuntime, path: &str, hex: bool) -> Result<(), Fault>
    ensures { IsPlaySession ⟦<NoDisk as Disk>⟧ (ahead ⟦<StandardInput as Source>⟧.input)
        ⟦<StandardOutput<'static> as Sink>⟧.out hex result }
{
    if path == STANDARD_INPUT {
        return Err(Fault::TwoInputs);
    }
    let alloc = rt.alloc();
    let mut server = Server::in_memory(alloc, read_library_file(rt, alloc, path)?);
    hold(rt, &mut server, 1, hex)
}

/// Serves a session of many clients over the library in the file `path`, with objects in memory.
/// Errors are those of `play`.
pub(crate) fn play_shared(rt: &HostRuntime, path: &str) -> Result<(), Fault>
    ensures { HasPlayedShared ⟦<NoDisk as Disk>⟧ (ahead ⟦<StandardInput as Source>⟧.input)
        ⟦<StandardOutput<'static> as Sink>⟧.out result }
{
    if path == STANDARD_INPUT {
        return Err(Fault::TwoInputs);
    }
    let alloc = rt.alloc();
    let mut server = Server::in_memory(alloc, read_library_file(rt, alloc, path)?);
    hold_shared(rt, &mut server, 1)
}

//! Sessions over streams in memory, of one client and of many.
ghost use Rattle.std.specs.Prelude.{◌≡◌, List, IfOk, IfErr};
ghost use Rattle.oa_history.specs.Framed.{MakesCalls};
ghost use Rattle.oa_history.specs.promise.DurablePrefixes.{CallSequence, CompletedCall, HasWritten};
ghost use Rattle.oa_record.specs.promise.Replies.{ReplyValue};
ghost use Rattle.oa_server.specs.promise.Storages.{Serves};
ghost use Rattle.oa_history.specs.declared.fault.HistoryFault.TheVariants.{Memory};

use crate::laws::turns_are_calls;
use crate::{HistoryFault, SharedInput, StreamInput, Written, WrittenFrames};
use oa_disk::MemoryDisk;
use oa_frame::Framing;
use oa_server::Server;
use oa_stream::{BufferedSource, VecSink};
use std::alloc::Global;

/// Serves one client, with this input, on a writer in memory. Returns the output and the result of
/// the session. Err: an allocation failed.
pub(crate) fn written(
    alloc: Global,
    server: &mut Server<MemoryDisk>,
    input: &StreamInput,
) -> Result<Written, HistoryFault>
    ensures written { IfOk result (λ written. (done : List (CompletedCall ReplyValue))
        × HasWritten input.now written server.old.engine.storage server.old.engine.host done server.new.engine.storage server.new.engine.host
        × CallSequence Serves server.old.engine.storage server.old.engine.host done server.new.engine.storage server.new.engine.host) }
    ensures wanting { IfErr result (λ fault. fault ≡ Memory) }
{
    let mut reader = BufferedSource::new(alloc, input.bytes.as_slice())?;
    let mut output = VecSink::new(Vec::new(alloc));
    let served = match input.framing {
        Framing::HexLines => server.serve_hex(&mut reader, &mut output, input.group)?,
        Framing::Records => server.serve(&mut reader, &mut output, input.group)?,
    };
    Ok(Written { output, served })
}

/// Serves many clients, with this input of frames, on a writer in memory. Returns the frames, and
/// why the session ended. Err: an allocation failed.
pub(crate) fn framed(
    alloc: Global,
    server: &mut Server<MemoryDisk>,
    input: &SharedInput,
) -> Result<WrittenFrames, HistoryFault>
    ensures written { IfOk result (λ written. MakesCalls input.now written server.old server.new) }
    ensures wanting { IfErr result (λ fault. fault ≡ Memory) }
{
    turns_are_calls::<MemoryDisk>();
    let mut reader = BufferedSource::new(alloc, input.bytes.as_slice())?;
    let mut output = VecSink::new(Vec::new(alloc));
    let why = server.serve_shared(&mut reader, &mut output, input.group)?;
    Ok(WrittenFrames { output, why })
}

//! The end of a session as the program's result.
ghost use Rattle.std.specs.Prelude.{◌≡◌};
ghost use Rattle.oa_commands.specs.Statuses.{of_end, of_session_end};

use crate::fault::Fault;
use oa_frame::End;
use oa_mux::SessionEnd;

/// Converts the end of a session of one client into the program's result. The end of the input is
/// no fault.
///
/// Errors: `Cut` if the input ended within a record; `TooLong` for a line or record above the
/// limit; `BadHex` with the line's number for a line that is not hexadecimal; `Read` and `Write` if
/// standard input or output failed.
pub fn client_ended(why: End) -> Result<(), Fault>
    ensures { result ≡ of_end why }
{
    match why {
        End::Closed => Ok(()),
        End::Cut => Err(Fault::Cut),
        End::TooLong => Err(Fault::TooLong),
        End::BadHex(line) => Err(Fault::BadHex(line)),
        End::ReadFault => Err(Fault::Read),
        End::WriteFault => Err(Fault::Write),
    }
}

/// Converts the end of a session of many clients into the program's result. The end of the input
/// between two frames is no fault. Neither is the end of a client, whatever it was: only that
/// client receives it.
///
/// Errors: `FrameCut` if the input ended within a frame; `UnknownFrame` for a frame with an invalid
/// head; `Memory` if an allocation for a part of a record failed; `Read` and `Write` if standard
/// input or output failed.
pub fn clients_ended(why: SessionEnd) -> Result<(), Fault>
    ensures { result ≡ of_session_end why }
{
    match why {
        SessionEnd::Closed => Ok(()),
        SessionEnd::Cut => Err(Fault::FrameCut),
        SessionEnd::Unknown => Err(Fault::UnknownFrame),
        SessionEnd::Memory => Err(Fault::Memory),
        SessionEnd::ReadFault => Err(Fault::Read),
        SessionEnd::WriteFault => Err(Fault::Write),
    }
}

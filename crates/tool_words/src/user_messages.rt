//! Output for the user of a program: the usage line as help, and a message if a run fails.

ghost use Rattle.tool_io.specs.Log.{OnLog};
ghost use Rattle.tool_io.specs.Host.{WriteCause};
ghost use Rattle.tool_io.specs.Whole.{PutAllLog};
ghost use Rattle.tool_io.specs.declared.host.Place.TheVariants.{Err};
ghost use Rattle.tool_words.specs.Causes.{RunCause};
ghost use Rattle.tool_words.specs.Messages.{told_to_user};
ghost use Rattle.tool_words.specs.Telling.{HelpLog};

use crate::{Status, Tool, message_of};
use tool_io::{Host, Place, Put, put_all};

/// Writes the usage line on `Out`.
pub fn give_help<H: Host>(tool: Tool, host: &mut H) -> Status
    ensures cause { RunCause result (H.faults host.old) (H.faults host.new) }
    ensures log { OnLog (H.log host.old) (H.log host.new) (HelpLog tool result) }
{
    let usage = message_of(tool, &Status::Helped);
    match put_all(host, Place::Out, &usage) {
        Put::Wrote(_) => Status::Helped,
        Put::Failed => Status::WriteFault(Place::Out),
    }
}

/// Writes the message of a status on `Err`, or nothing after help.
pub fn tell_user<H: Host>(tool: Tool, status: &Status, host: &mut H) -> Put
    ensures cause { WriteCause result (H.faults host.old) (H.faults host.new) Err }
    ensures log { OnLog (H.log host.old) (H.log host.new)
        (PutAllLog result Err (told_to_user tool status.now)) }
{
    if let Status::Helped = status {
        return Put::Wrote(0);
    }
    put_all(host, Place::Err, &message_of(tool, status))
}

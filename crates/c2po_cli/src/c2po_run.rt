//! The top call of the compiler.

ghost use Rattle.std.specs.Prelude.{◌≡◌, ◌≢◌, ◌↔◌, None};
ghost use Rattle.tool_io.specs.Log.{OnLog};
ghost use Rattle.tool_io.specs.declared.host.Place.{Place as Where};
ghost use Rattle.tool_io.specs.declared.host.Place.TheVariants.{Err};
ghost use Rattle.tool_words.specs.declared.file_kind.FileKind.TheVariants.{Program};
ghost use Rattle.tool_words.specs.C2poWords.{asked_of};
ghost use Rattle.tool_words.specs.Causes.{CauseAt, RunCause};
ghost use Rattle.c2po_cli.specs.Asking.{ask, file_kind as kind_of, help, make as made_so, make_of, nothing, served};
ghost use Rattle.c2po_cli.specs.Run.{IsMade, Ran};
ghost use Rattle.c2po_cli.specs.Showing.{ShowsProgram};
ghost use Rattle.c2po_cli.specs.Written.{NeedsNoMore, UpgradesProgram};

use crate::inputs::gather;
use crate::make::{Make, compilation, showing, upgrading};
use crate::output::write_out;
use std::alloc::Global;
use tool_io::Host;
use tool_words::{C2poAsk, Status, Tool, Words, c2po_ask, give_help, tell_user};

/// Makes the output of the request, and writes it.
fn make<H: Host>(alloc: Global, asked: &Make<'_>, host: &mut H) -> Status
    requires header { kind_of asked.now.product ≡ Program → asked.now.header ≡ None }
    ensures cause { RunCause result (H.faults host.old) (H.faults host.new) }
    ensures log { OnLog (H.log host.old) (H.log host.new)
        (Ran (made_so (make_of asked.now)) result) }
{
    match gather(alloc, asked, host) {
        Ok(bytes) => write_out(asked.out, &bytes, host),
        Err(status) => status,
    }
}

/// Runs the request of the arguments.
fn run_asked<H: Host>(alloc: Global, asked: C2poAsk<'_>, host: &mut H) -> Status
    ensures cause { RunCause result (H.faults host.old) (H.faults host.new) }
    ensures log { OnLog (H.log host.old) (H.log host.new)
        (Ran (served (asked_of asked.entry)) result) }
{
    match asked {
        C2poAsk::Help => give_help(Tool::C2po, host),
        C2poAsk::Compile(asked) => make(alloc, &compilation(&asked), host),
        C2poAsk::Upgrade { out, program } => make(alloc, &upgrading(out, program), host),
        C2poAsk::Show { out, program } => make(alloc, &showing(out, program), host),
        C2poAsk::Nothing => Status::Usage,
    }
}

/// Reads the arguments, and runs their request.
fn run<H: Host>(alloc: Global, words: &Words, host: &mut H) -> Status
    ensures usage { result ≢ Status.Memory → (result ≡ Status.Usage) ↔ (ask words.now ≡ nothing) }
    ensures helped { result ≡ Status.Helped → ask words.now ≡ help }
    ensures cause { RunCause result (H.faults host.old) (H.faults host.new) }
    ensures log { OnLog (H.log host.old) (H.log host.new) (Ran (ask words.now) result) }
{
    match c2po_ask(alloc, words) {
        Ok(asked) => run_asked(alloc, asked, host),
        Err(_) => Status::Memory,
    }
}

/// Runs c2po: runs the request of the arguments, and prints on `Err` the message of a failure.
///
/// It writes the image of a specification or its instruction table, possibly in simplified form; a
/// program in version 2, or its text; or it prints help. The output is attached, and written, only
/// when all bytes are there; so an older file is left unchanged if something is refused. The text
/// of an image is a specification without a fault, whose image over the stored columns is the file.
/// A program in version 2 has the formulas of the old one, and a program in simplified form needs
/// no more slots and boxes than in plain form.
pub fn c2po_main<H: Host>(alloc: Global, words: &Words, host: &mut H) -> Status
    ensures usage { result ≢ Status.Memory → (result ≡ Status.Usage) ↔ (ask words.now ≡ nothing) }
    ensures helped { result ≡ Status.Helped → ask words.now ≡ help }
    ensures cause { (p : Where) → p ≢ Err
        → CauseAt result p (H.faults host.old p) (H.faults host.new p) }
    ensures log { OnLog (H.log host.old) (H.log host.new)
        (IsMade (ask words.now) result (H.faults host.old) (H.faults host.new)) }
    ensures returns { OnLog (H.log host.old) (H.log host.new)
        (ShowsProgram (ask words.now) result) }
    ensures upgraded { OnLog (H.log host.old) (H.log host.new)
        (UpgradesProgram (ask words.now) result) }
    ensures smaller { OnLog (H.log host.old) (H.log host.new)
        (NeedsNoMore (ask words.now) result) }
{
    let status = run(alloc, words, host);
    tell_user(Tool::C2po, &status, host);
    status
}

//! A text that is compiled, and a trace that is watched with the compiled program.

ghost use Rattle.std.specs.Prelude.{◌≡◌, ◌≢◌, [], IsTrue};
ghost use Rattle.tool_io.specs.Log.{given, taken};
ghost use Rattle.tool_io.specs.MemFiles.{no_files};
ghost use Rattle.api_tests.specs.Joined.{HasMade, HasRun, IfApart, IfTogether, IfUnmade, IfWatched, IsWatched, Requests, ReportsRequested, made_as};

use crate::Compared;
use mltl_tools::{Status, Words, c2po_main, compiled_and_watched, r2u2_main};
use std::alloc::{AllocError, Global};
use tool_io::{MemHost, Place};

/// The ending of the runs of both programs.
#[derive(Drop)]
pub enum Ended {
    /// c2po ended with this status, and r2u2 didn't run.
    Unmade(Status),
    /// c2po ended with success, and r2u2 with this status. It isn't known that r2u2 read the output
    /// of c2po as its program.
    Apart(Status),
    /// c2po ended with success, and r2u2 with this status. It read the output of c2po as its
    /// program.
    Together(Status),
}

/// Runs r2u2 over a new host.
fn run_over(alloc: Global, watching: &Words, watcher: &mut Compared) -> Status
    requires { watcher.old.host.tape.events ≡ [] }
    ensures { HasRun watching.now result watcher.old.host watcher.new.host }
{
    let mut kept = None;
    r2u2_main(alloc, watching, watcher, &mut kept)
}

/// Runs r2u2 over a host, in which a program is put into a file of this name. Returns its status,
/// if there was memory for the file.
fn watch_program(
    alloc: Global,
    program: &[u8],
    watching: &Words,
    watcher: &mut Compared,
    name: &str,
) -> Result<Ended, AllocError>
    requires new { watcher.old.host.tape.events ≡ [] }
    requires unread { watcher.old.host.store.readings ≡ no_files.readings }
    ensures watched { IsWatched result }
    ensures ran { IfWatched result (λ status.
        HasRun watching.now status watcher.old.host watcher.new.host) }
    ensures apart { IfApart result
        (IsTrue watcher.new.whole → watcher.new.read ≢ program.now) }
    ensures together { IfTogether result (λ status.
        taken Place.Program watcher.new.host.tape.events ≡ program.now) }
{
    watcher.put_program(name, program)?;
    let status = run_over(alloc, watching, watcher);
    if watcher.has_read(program) {
        Ok(Ended::Together(status))
    } else {
        Ok(Ended::Apart(status))
    }
}

/// Compiles a text by one command line over one host, and watches a trace with the compiled program
/// by the other command line, over the other host, in which the program is put into a file of this
/// name. Returns the ending of both runs; out of memory for that file is an ending only after a
/// compilation with success. If the command lines request such runs, both ended with success, and
/// the program that was read is the program that was written, the output of r2u2 reports the text.
pub fn compile_and_watch(
    alloc: Global,
    making: &Words,
    maker: &mut MemHost,
    watching: &Words,
    watcher: &mut Compared,
    name: &str,
) -> Result<Ended, AllocError>
    requires new { (maker.old.tape.events ≡ []) × (watcher.old.host.tape.events ≡ []) }
    requires unread { watcher.old.host.store.readings ≡ no_files.readings }
    ensures made { HasMade making.now (made_as result) maker.old maker.new }
    ensures unmade { IfUnmade result (λ status. status ≢ Status.Done) }
    ensures ran { IfWatched result (λ status.
        HasRun watching.now status watcher.old.host watcher.new.host) }
    ensures apart { IfApart result (IsTrue watcher.new.whole
        → watcher.new.read ≢ given Place.Out maker.new.tape.events) }
    ensures reports { IfTogether result (λ status. status ≡ Status.Done
        → (asked : Requests making.now watching.now)
        → ReportsRequested asked maker.new.tape.events watcher.new.host.tape.events) }
{
    match c2po_main(alloc, making, maker) {
        Status::Done => {
            let ended = watch_program(alloc, maker.out(), watching, watcher, name);
            compiled_and_watched();
            ended
        }
        other => Ok(Ended::Unmade(other)),
    }
}

#[cfg(test)]
mod tests {
    use super::{Ended, compile_and_watch};
    use crate::Compared;
    use mltl_tools::{Status, Words};
    use std::alloc::{AllocError, Global};
    use std::test::Fail;
    use tool_io::MemHost;

    fn words_of(alloc: Global, text: &str) -> Result<Words, AllocError> {
        let mut words = Words::new(alloc);
        for word in text.split(' ') {
            words.push(word)?;
        }
        Ok(words)
    }

    #[test]
    fn what_is_compiled_and_watched_reports_the_text(rt: HostRuntime) -> Result<(), Fail> {
        let alloc = rt.alloc();
        let mut maker = MemHost::make(alloc, 99, 9_999)?;
        maker.put_file(
            "grant.c2po",
            b"INPUT r, g: bool; FTSPEC granted: r -> F[0,2] g;",
        )?;
        let mut files = MemHost::make(alloc, 99, 9_999)?;
        files.put_file("grant.csv", b"# g,r\n0,1\n0,0\n0,0\n1,0\n")?;
        let mut watcher = Compared::make(alloc, files);
        let making = words_of(alloc, "grant.c2po")?;
        let watching = words_of(alloc, "spec.bin grant.csv")?;
        match compile_and_watch(
            alloc,
            &making,
            &mut maker,
            &watching,
            &mut watcher,
            "spec.bin",
        )? {
            Ended::Together(Status::Done) => {
                let wanted = b"granted:0,F\ngranted:1,T\ngranted:2,T\ngranted:3,T\n";
                assert_eq!(rt; watcher.host().out(), wanted.as_slice());
            }
            _ => assert!(rt; false, "a run had another end"),
        }
        Ok(())
    }
}

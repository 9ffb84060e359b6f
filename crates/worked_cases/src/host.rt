//! Hosts in memory for the runs of a script.

ghost use Rattle.std.specs.Prelude.{◌≡◌, OnOk};
ghost use Rattle.tool_io.specs.MemFiles.{no_files};

use crate::files::NamedBytes;
use crate::scene::Scenes;
use crate::setting::Setting;
use std::alloc::{AllocError, Global};
use tool_io::{Host, MemHost};

/// Puts the files into a host that has no attached place.
fn put_files(host: &mut MemHost, files: &[NamedBytes]) -> Result<(), AllocError>
    requires unread { host.old.store.readings ≡ no_files.readings }
    ensures still { OnOk result (host.new.store.readings ≡ no_files.readings) }
{
    for file in files {
        host.put_file(file.name.as_str(), &file.bytes)?;
    }
    Ok(())
}

/// Makes the host of a run, with the files of all cases and then the files of its own case, which
/// replace files of the same name.
pub fn host_of(alloc: Global, scenes: &Scenes, setting: Setting) -> Result<MemHost, AllocError> {
    let mut host = MemHost::make(alloc, scenes.room.events, scenes.room.bytes)?;
    put_files(&mut host, scenes.common.files.as_slice())?;
    put_files(&mut host, scenes.own.files.as_slice())?;
    if let Some((place, call)) = setting.failing {
        host.fail(place, call)?;
    }
    if setting.block > 0 {
        host.set_block(setting.block);
    }
    Ok(host)
}

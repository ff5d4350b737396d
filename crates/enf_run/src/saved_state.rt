//! The state after a log, and its way into a file.
ghost use Rattle.std.specs.Prelude.{◌≡◌, false};
ghost use Rattle.std.specs.Option.{option_map};
ghost use Rattle.enf_run.specs.machine.LogRunEnds.{SavesState, SavesWhereAsked};

use crate::endings::Cut;
use enf_io::devices::Files;
use enforcer_core::enforcer::Enforcer;
use save_codec::save;
use std::alloc::Global;

/// The bytes of the files under which a state comes about.
#[derive(Clone, Copy)]
pub struct Sources<'a> {
    pub signature: &'a [u8],
    pub policy: &'a [u8],
}

/// Saves the state of an enforcer to a file, where one is named for it.
pub fn save_where_asked<F: Files>(
    alloc: Global,
    file: Option<&str>,
    sources: Sources<'_>,
    enforcer: &Enforcer,
    files: &mut F,
) -> Result<(), Cut>
    requires goes_on { enforcer.now.stopped ≡ false }
    ensures { SavesWhereAsked (option_map (λ name. name.now) file.entry) enforcer.now
        sources.entry.signature.now sources.entry.policy.now (F.seen files.old) (F.seen files.new) result }
{
    match file {
        Some(name) => save_state(alloc, name, sources, enforcer, files),
        None => Ok(()),
    }
}

// Saves the state of an enforcer to a file. Nothing is written before the whole text is there.
fn save_state<F: Files>(
    alloc: Global,
    file: &str,
    sources: Sources<'_>,
    enforcer: &Enforcer,
    files: &mut F,
) -> Result<(), Cut>
    requires goes_on { enforcer.now.stopped ≡ false }
    ensures { SavesState enforcer.now sources.entry.signature.now sources.entry.policy.now file.now
        (F.seen files.old) (F.seen files.new) result }
{
    let snapshot = enforcer.snapshot(alloc)?;
    let text = save(alloc, sources.signature, sources.policy, &snapshot)?;
    files.write(file, &text)?;
    Ok(())
}

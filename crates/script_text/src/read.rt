ghost use Rattle.std.specs.Prelude.{◌≤◌, length, IfOk, IsErrOf};
ghost use Rattle.script_text.specs.declared.script.TheConstants.{MAX_SCRIPT};
ghost use Rattle.script_text.specs.Lines.{HasLines, IsAccepted};

use crate::checks::{have_own_names, runs_fit};
use crate::fault::ScriptFault;
use crate::reading::lines;
use crate::script::Script;
use crate::sorting::in_order;
use std::alloc::Global;

/// The script that these bytes are, with its documents in order, or `NotBuilt` where they are none. It goes over the
/// bytes once, and sorts the documents and the names of the searches.
pub fn read_script(alloc: Global, bytes: &[u8]) -> Result<Script, ScriptFault>
    requires { length bytes.now ≤ MAX_SCRIPT }
    ensures found { IfOk result (HasLines bytes.now) }
    ensures not_built { IsErrOf result ScriptFault.NotBuilt → ¬ IsAccepted bytes.now }
{
    let Script { docs, searches } = lines(alloc, bytes)?;
    if !have_own_names(alloc, &searches)? {
        return Err(ScriptFault::NotBuilt);
    }
    let docs = in_order(docs)?;
    if !runs_fit(&docs) {
        return Err(ScriptFault::NotBuilt);
    }
    Ok(Script { docs, searches })
}

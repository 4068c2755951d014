ghost use Rattle.std.specs.Prelude.{◌≤◌, length, string_bytes, IfOk, IsErrOf};
ghost use Rattle.script_text.specs.declared.script.TheConstants.{MAX_SCRIPT};
ghost use Rattle.script_text.specs.Lines.{IsAccepted};
ghost use Rattle.search_main.specs.Accepted.{AnswersScript};

use crate::environment::environment;
use crate::opening::read_documents;
use crate::reports::output;
use jx_io::Steps;
use script_text::{Script, ScriptFault, read_script};
use std::alloc::Global;

/// The count of the bytes that are parsed.
struct Parsed;

/// The output of the script that these bytes are; `NotBuilt` exactly where they are no script.
pub fn answer(alloc: Global, bytes: &[u8]) -> Result<String, ScriptFault>
    requires { length bytes.now ≤ MAX_SCRIPT }
    ensures answered { IfOk result (λ text. AnswersScript bytes.now (string_bytes text)) }
    ensures not_built { IsErrOf result ScriptFault.NotBuilt → ¬ IsAccepted bytes.now }
{
    let Script { docs, searches } = read_script(alloc, bytes)?;
    let mut steps = Steps::<Parsed>::new();
    let opened = read_documents(alloc, docs, &mut steps)?;
    let env = environment(alloc, &opened)?;
    Ok(output(alloc, &env, &opened, &searches)?)
}

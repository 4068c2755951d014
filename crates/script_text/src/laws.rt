//! The law of scripts. A call tells its caller the law.
ghost use Rattle.std.specs.Prelude.{◌≡◌, ℕ, List};
ghost use Rattle.script_text.specs.Scripts as scripts;
ghost use Rattle.script_text.specs.Spelling.{IsScript};

/// Bytes spell one script at most.
pub fn one_script()
    ensures { (bytes : List ℕ) (s t : scripts.Script) → IsScript bytes s → IsScript bytes t → s ≡ t }
{}

ghost use Rattle.std.specs.Prelude.{◌≤◌, length};
ghost use Rattle.java_tree.specs.declared.limits.TheConstants.{MAX_TEXT};

use java_tree::{Level, Outline, Text};

/// A text with its name, its source level and its outline, which is none where the text is unreadable.
#[derive(Debug, Drop)]
pub struct Document {
    pub container: Text,
    pub path: Text,
    pub text: Text,
    pub level: Level,
    pub outline: Option<Outline>,
    pub ghost short: { length text ≤ MAX_TEXT },
}

use java_tree::{Limit, Rule, Scope, Text, What};

/// The most bytes of a script.
pub const MAX_SCRIPT: usize = 67_108_864;

/// A `doc` line with its text.
#[derive(Debug, Drop)]
pub struct ScriptDoc {
    pub container: Text,
    pub path: Text,
    pub stamp: u64,
    pub text: Text,
}

/// A search that waits until each document is indexed, by the number of its line.
#[derive(Debug, Drop)]
pub struct Search {
    pub line: u32,
    pub name: Text,
    pub what: What,
    pub limit: Limit,
    pub rule: Rule,
    pub case: bool,
    pub scope: Scope,
    /// The text of the pattern, as it is spelled.
    pub pattern: Text,
}

/// The lines of a script.
#[derive(Debug, Drop)]
pub struct Script {
    pub docs: Vec<ScriptDoc>,
    pub searches: Vec<Search>,
}

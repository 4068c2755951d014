//! Laws of the keys of documents. A call of one tells its caller the law.
ghost use Rattle.java_laws.specs.Keys.{ReferencesHaveKeys, BindingsAreOfTheirKind};

/// A unit has the keys of its references.
pub fn references_have_keys()
    ensures { ReferencesHaveKeys }
{}

/// What an occurrence is bound to is of its kind.
pub fn bindings_are_of_their_kind()
    ensures { BindingsAreOfTheirKind }
{}

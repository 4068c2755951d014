//! Laws of what a search finds. A call of one tells its caller the law.
ghost use Rattle.java_model.specs.DocumentTexts.{EnvironmentsAreUnique};
ghost use Rattle.java_model.specs.Matches.Laws.{FittingReferencesAreAdmitted, FittingDeclarationsAreAdmitted};

/// A pattern that a reference fits asks for the key that its spelling gives.
pub fn fitting_references_are_admitted()
    ensures { FittingReferencesAreAdmitted }
{}

/// A pattern that a declaration or a supertype fits asks for its key.
pub fn fitting_declarations_are_admitted()
    ensures { FittingDeclarationsAreAdmitted }
{}

/// Documents have one environment at most, where a text has one outline at most.
pub fn environments_are_unique()
    ensures { EnvironmentsAreUnique }
{}

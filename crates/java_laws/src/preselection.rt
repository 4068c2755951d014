//! Laws of what a search asks an index for. A call of one tells its caller the law.
ghost use Rattle.java_laws.specs.Documents.{FittingDocumentsArePreselected, MatchesAreOfCandidates};
ghost use Rattle.java_laws.specs.Preselection.{FittingReferencesHaveKeys, FittingOccurrencesHaveKeys};

use java_model::{
    chosen_method_fits, fitting_declarations_are_admitted, fitting_references_are_admitted,
    member_types_have_their_name,
};

/// A unit with a reference that fits a pattern has a key that the pattern admits.
pub fn fitting_references_have_keys()
    ensures { FittingReferencesHaveKeys }
{
    fitting_references_are_admitted();
}

/// A unit with an occurrence that fits a pattern has a key that the pattern admits.
pub fn fitting_occurrences_have_keys()
    ensures { FittingOccurrencesHaveKeys }
{
    fitting_references_are_admitted();
    fitting_declarations_are_admitted();
    chosen_method_fits();
    member_types_have_their_name();
}

/// A document with an occurrence that fits a pattern has a key that the pattern admits.
pub fn fitting_documents_are_preselected()
    ensures { FittingDocumentsArePreselected }
{
    fitting_occurrences_have_keys();
}

/// Each match of a full scan stands in a document that an index gives for the pattern.
pub fn matches_are_of_candidates()
    ensures { MatchesAreOfCandidates }
{
    fitting_documents_are_preselected();
}

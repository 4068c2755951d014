//! Laws of the order in which the occurrences of a unit stand. A call of one tells its caller the law.
ghost use Rattle.java_laws.specs.Documents.{OccurrencesOfDocumentsAreUnique};
ghost use Rattle.java_laws.specs.Order.{OccurrencesAreStrict, OccurrencesAreUnique, OccurrencesStandInOrder};

/// Occurrences stand in order of start, end and kind.
pub fn occurrences_stand_in_order()
    ensures { OccurrencesStandInOrder }
{}

/// No two occurrences of a unit have one start and one kind.
pub fn occurrences_are_strict()
    ensures { OccurrencesAreStrict }
{}

/// A unit has one list of occurrences.
pub fn occurrences_are_unique()
    ensures { OccurrencesAreUnique }
{}

/// A document has one list of occurrences in an environment.
pub fn occurrences_of_documents_are_unique()
    ensures { OccurrencesOfDocumentsAreUnique }
{}

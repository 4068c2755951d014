//! Laws of the look-up of member types with types in hand. A call of one tells its caller the law.
ghost use Rattle.java_laws.specs.Reuse.{AnswersHoldAgain, AnswersHoldDisjointly, LookUpsHaveAsked};

/// An answer of the look-up with types in hand holds with all hands that have the same of the types that it asked.
pub fn answers_hold_again()
    ensures same { AnswersHoldAgain }
    ensures disjoint { AnswersHoldDisjointly }
{}

/// Each look-up in the header of a type has types that it asked.
pub fn look_ups_have_asked()
    ensures { LookUpsHaveAsked }
{}

ghost use Rattle.std.specs.Prelude.{List};
ghost use Rattle.java_model.specs.Grammar.Signs.{Sign};
ghost use Rattle.java_unit_reading.specs.ReadingLaws.{AtMostOneUnit, ReadsEachUnit, ReadsNoOtherUnit};

/// Tokens have at most one unit (JLS 7.3).
pub fn one_unit()
    ensures { (tokens : List Sign) → AtMostOneUnit tokens }
{}

/// The function that reads finds the unit of tokens, and no other tree.
pub fn reads_units()
    ensures each { ReadsEachUnit }
    ensures no_other { ReadsNoOtherUnit }
{}

//! Laws of the lexical structure (JLS 3). A call of one tells its caller the law.
ghost use Rattle.java_model.specs.Lexical.Laws.{
  InputsAreUnique,
  TokensAreUnique,
  FaultsAreUnique,
  FaultsExcludeTokens,
  TokensOrFault,
  SpansRise,
  FaultsLieInside,
};

/// A text has its characters after Unicode escapes in one way.
pub fn inputs_are_unique()
    ensures { InputsAreUnique }
{}

/// A text has its tokens in one way.
pub fn tokens_are_unique()
    ensures { TokensAreUnique }
{}

/// A text has one fault at most.
pub fn faults_are_unique()
    ensures { FaultsAreUnique }
{}

/// A text with a fault has no tokens.
pub fn faults_exclude_tokens()
    ensures { FaultsExcludeTokens }
{}

/// Each text has tokens or a fault.
pub fn tokens_or_fault()
    ensures { TokensOrFault }
{}

/// The spans of tokens rise and lie in the text.
pub fn spans_rise()
    ensures { SpansRise }
{}

/// A fault stands in the text.
pub fn faults_lie_inside()
    ensures { FaultsLieInside }
{}

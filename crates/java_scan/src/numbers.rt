//! Integer literals (JLS 3.10.1) and floating-point literals (JLS 3.10.2).

ghost use Rattle.std.specs.Prelude.{◌≡◌};
ghost use Rattle.java_scan.specs.Steps.{Step, has_exponent, after_exponent, int_end_step, float_suffix_step, fraction_step, decimal_step, integer_step, whole_step, number_step, point_step};
ghost use Rattle.java_scan.specs.Steps.Step.{taken};

use crate::class::Class;
use crate::cursor::Cursor;
use java_tree::TokenKind;

impl Cursor<'_> {
    /// The end of an integer literal after its digits.
    #[tactic(auto, unfolding(crate::specs::Steps::int_end_step))]
    fn int_end(&mut self) -> TokenKind
        ensures { taken result self.new ≡ int_end_step self.old }
    {
        if self.skip_if(Class::LongSuffix) {
            TokenKind::LongLit
        } else {
            TokenKind::IntLit
        }
    }

    /// The end of a floating-point literal after its exponent.
    #[tactic(auto, unfolding(crate::specs::Steps::float_suffix_step))]
    fn float_suffix(&mut self) -> TokenKind
        ensures { taken result self.new ≡ float_suffix_step self.old }
    {
        if self.skip_if(Class::FloatSuffix) {
            return TokenKind::FloatLit;
        }
        self.skip_if(Class::DoubleSuffix);
        TokenKind::DoubleLit
    }

    /// Moves on over the exponent here, and says whether there is one.
    fn skip_exponent(&mut self) -> bool
        ensures value { result ≡ has_exponent self.old }
        ensures after { self.new ≡ after_exponent self.old }
    {
        let mut end = self.copy();
        if !end.skip_if(Class::ExponentMark) {
            return false;
        }
        end.skip_if(Class::Sign);
        if !end.sees(Class::Digit) {
            return false;
        }
        end.run(Class::Digit);
        *self = end;
        true
    }

    /// The end of a floating-point literal after its full stop.
    #[tactic(auto, unfolding(crate::specs::Steps::fraction_step))]
    fn fraction(&mut self) -> TokenKind
        ensures { taken result self.new ≡ fraction_step self.old }
    {
        self.run(Class::Digit);
        self.skip_exponent();
        self.float_suffix()
    }

    /// The end of an integer literal whose digits were passed from `start` on.
    #[tactic(auto, unfolding(crate::specs::Steps::integer_step))]
    fn integer(&mut self, start: &Self) -> TokenKind
        ensures { taken result self.new ≡ integer_step start.now self.old }
    {
        let mut octal = start.copy();
        if octal.skip_if(Class::Zero) {
            octal.run(Class::OctalDigit);
            *self = octal;
        }
        self.int_end()
    }

    /// The end of a literal whose digits were passed from `start` on, and after which no full stop stands.
    #[tactic(auto, unfolding(crate::specs::Steps::whole_step))]
    fn whole(&mut self, start: &Self) -> TokenKind
        ensures { taken result self.new ≡ whole_step start.now self.old }
    {
        if self.skip_exponent() {
            return self.float_suffix();
        }
        if self.sees(Class::FloatSuffix) {
            return self.float_suffix();
        }
        if self.sees(Class::DoubleSuffix) {
            return self.float_suffix();
        }
        self.integer(start)
    }

    /// The literal that begins with a digit, if it isn't hexadecimal.
    #[tactic(auto, unfolding(crate::specs::Steps::decimal_step, crate::specs::Steps::digits_step))]
    fn decimal(&mut self) -> TokenKind
        ensures { taken result self.new ≡ decimal_step self.old }
    {
        let start = self.copy();
        self.run(Class::Digit);
        if self.skip_if(Class::Point) {
            return self.fraction();
        }
        self.whole(&start)
    }

    /// The literal that begins with a digit.
    #[tactic(auto, unfolding(crate::specs::Steps::number_step, crate::specs::Steps::sees_hex))]
    pub fn number(&mut self) -> TokenKind
        ensures { taken result self.new ≡ number_step self.old }
    {
        let mut digits = self.copy();
        if digits.skip_if(Class::Zero)
            && digits.skip_if(Class::HexMark)
            && digits.sees(Class::HexDigit)
        {
            digits.run(Class::HexDigit);
            *self = digits;
            return self.int_end();
        }
        self.decimal()
    }

    /// What begins with a full stop: a floating-point literal or the separator.
    #[tactic(auto, unfolding(crate::specs::Steps::point_step))]
    pub fn point(&mut self) -> TokenKind
        ensures { taken result self.new ≡ point_step self.old }
    {
        self.skip_if(Class::Point);
        if self.sees(Class::Digit) {
            return self.fraction();
        }
        TokenKind::Symbol
    }
}

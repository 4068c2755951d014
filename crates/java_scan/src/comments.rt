//! Comments (JLS 3.7).

ghost use Rattle.std.specs.Prelude.{◌≡◌, false, if◌then◌else◌};
ghost use Rattle.java_model.specs.Lexical.Characters.{star};
ghost use Rattle.java_model.proofs.Lexical.Reading.{begins};
ghost use Rattle.java_scan.specs.declared.class.Class.TheVariants.{Star};
ghost use Rattle.java_scan.specs.Classes.{passes};
ghost use Rattle.java_scan.specs.Place.{after_run, differs};
ghost use Rattle.java_scan.specs.Steps.{after_if, tail_end};

use crate::class::Class;
use crate::cursor::Cursor;

impl Cursor<'_> {
    /// Moves on over the next star, or to the end, and says whether a star was left.
    fn skip_past_star(&mut self) -> bool
        ensures value { result ≡ begins (passes Star) (after_run (differs star) self.old).left }
        ensures after { self.new ≡ after_if (passes Star) (after_run (differs star) self.old) }
    {
        self.run_to(b'*');
        self.skip_if(Class::Star)
    }

    /// Moves on over the rest of a traditional comment, and says whether it ends.
    pub fn skip_comment_tail(&mut self) -> bool
        ensures { tail_end false self.old ≡ (if result then Some self.new else None) }
    {
        while self.skip_past_star() {
            if self.skip_if(Class::Slash) {
                return true;
            }
        }
        false
    }
}

// Which rules take a second parent.
ghost use Rattle.std.specs.Prelude.{◌≡◌};
ghost use Rattle.rules.specs.Rules.{uses_second};

use crate::Rule;

impl Rule {
    pub fn uses_second(self) -> bool
        ensures { result ≡ uses_second self }
    {
        matches!(self, Rule::LetterRemoval(_) | Rule::LiteralRemoval(_))
    }
}

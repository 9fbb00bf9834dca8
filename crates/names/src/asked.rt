// Which names the rules ask for.
ghost use Rattle.std.specs.Prelude.{◌≡◌};
ghost use Rattle.rules.specs.Asked.{is_compared, is_worded};

use sheet::kinds;

// Whether the name of a record of the kind may be compared with others or looked up.
#[tactic(auto, unfolding(rules::specs::Words::any_of))]
pub fn is_compared(kind: u8) -> bool
    ensures { result ≡ is_compared kind }
{
    !matches!(kind, kinds::VARIANT | kinds::ARGUMENT | kinds::BIT_NAME)
}

// Whether the name of a record of the kind may be a word. The kinds are those of an annotation's records, of which `bodies` asks where they end: two questions
// that have one answer, each with a definition of its own.
pub fn is_worded(kind: u8) -> bool
    ensures { result ≡ is_worded kind }
{
    matches!(kind, kinds::ANNOTATION..=kinds::ARGUMENT)
}

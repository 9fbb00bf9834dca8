// Whether a name is a word.
ghost use Rattle.std.specs.Prelude.{◌≡◌, eqb};
ghost use Rattle.names.specs.Known.{numbers_of};
ghost use Rattle.names.specs.View.{entry_of, code_part};
ghost use Rattle.names.specs.WordOf.{code_of};

use names::{ValidationContext, Word};

// Whether the name of record `i` is that word.
#[tactic(auto, unfolding(names::specs::WordOf::word_of))]
pub fn is_word(context: ValidationContext, i: usize, word: Word) -> bool
    ensures { result ≡ eqb (entry_of code_part (numbers_of context.entry) i) (code_of word) }
{
    context.word(i) == Some(word)
}

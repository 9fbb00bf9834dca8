// The codes of names: a number for each word, and one for a name that a bit may have. The table keeps codes as its other parts, as numbers, of which 0 is none: an
// enum would be made a number where it is stored, and an enum again at each look, as `with_code` does where a rule asks for a word. `BIT` is no case of `Word`: no
// rule asks for such a name as for a word.
ghost use Rattle.std.specs.Prelude.{◌≡◌, MatchOption};
ghost use Rattle.names.specs.NameTable.{word_code};
ghost use Rattle.names.specs.WordOf.{word_of, code_of};

// The words that annotations and arguments know, each with its code.
#[derive(Clone, Copy, PartialEq, Eq)]
pub enum Word {
    Varint = 1,
    Zigzag = 2,
    Delta = 3,
    Limit = 4,
    Deprecated = 5,
    Doc = 6,
    Reason = 7,
    // the name with no bytes, which `is_number` asks for as for a word
    Blank = 15,
}

// The code of a name that a bit may have. It and `Blank` leave room for words that are yet to come.
pub const BIT: u16 = 16;

impl From<Word> for u16 {
    fn from(word: Word) -> u16
        ensures { result ≡ code_of word }
    {
        word as u16
    }
}

impl Word {
    // The word with that code. An Option and no `TryFrom`: a number that is no word is no error, and an error type of its own would be read by no caller.
    #[tactic(auto, unfolding(crate::specs::WordOf::word_of))]
    pub fn with_code(code: u16) -> Option<Word>
        ensures { result ≡ word_of code }
    {
        match code {
            1 => Some(Word::Varint),
            2 => Some(Word::Zigzag),
            3 => Some(Word::Delta),
            4 => Some(Word::Limit),
            5 => Some(Word::Deprecated),
            6 => Some(Word::Doc),
            7 => Some(Word::Reason),
            15 => Some(Word::Blank),
            _ => None,
        }
    }

    // The word with those bytes.
    #[tactic(auto, using(crate::proofs::WordCodes::word_told, crate::proofs::WordCodes::word_read))]
    fn with_bytes(name: &[u8]) -> Option<Word>
        ensures { MatchOption result (word_code name.now ≡ 0) (λ word. word_code name.now ≡ code_of word) }
    {
        match name {
            b"varint" => Some(Word::Varint),
            b"zigzag" => Some(Word::Zigzag),
            b"delta" => Some(Word::Delta),
            b"limit" => Some(Word::Limit),
            b"deprecated" => Some(Word::Deprecated),
            b"doc" => Some(Word::Doc),
            b"reason" => Some(Word::Reason),
            b"" => Some(Word::Blank),
            _ => None,
        }
    }
}

// The code of a name that may be a word; 0 where it is none.
pub fn word_code(name: &[u8]) -> u16
    ensures { result ≡ word_code name.now }
{
    match Word::with_bytes(name) {
        Some(word) => u16::from(word),
        None => 0,
    }
}

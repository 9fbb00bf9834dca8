// What the check answers.
ghost use Rattle.std.specs.Prelude.{◌≡◌};
ghost use Rattle.rules.specs.Answer.{number_of, values_of};

// The nine refusals, in the order of their numbers, 1 to 9.
#[derive(Clone, Copy, PartialEq, Eq)]
pub enum Refusal {
    SheetLength = 1,
    NamesLength,
    Unknown,
    NameRange,
    OrdinalRange,
    OutOfOrder,
    TooDeep,
    SecondDeclaration,
    EndlessChain,
}

// The number of a refusal.
impl From<Refusal> for u32 {
    fn from(refusal: Refusal) -> u32
        ensures { result ≡ number_of refusal }
    {
        refusal as u32
    }
}

// Why a sheet and its names text are turned down, and at which record.
#[derive(Clone, Copy, PartialEq, Eq)]
pub struct Refused {
    pub refusal: Refusal,
    pub index: u32,
}

// What is counted of the full list.
#[derive(Clone, Copy, PartialEq, Eq)]
pub struct Counts {
    pub total: u32,
    pub errors: u32,
}

pub type Answer = Result<Counts, Refused>;

// An answer as the numbers of document 01. `specs/Answer.antt` gives them for each case of an answer.
#[repr(C)]
#[derive(Clone, Copy, PartialEq, Eq)]
pub struct AnswerValues {
    pub number: u32,
    pub index: u32,
    pub total: u32,
    pub errors: u32,
}

// The four numbers of an answer. No way back stands beside it: four numbers of a file, or of a caller of `report`, may be no answer's, and both crates promise
// something of any four.
impl From<Answer> for AnswerValues {
    fn from(answer: Answer) -> AnswerValues
        ensures { result ≡ values_of answer }
    {
        match answer {
            Ok(counts) => AnswerValues {
                number: 0,
                index: 0,
                total: counts.total,
                errors: counts.errors,
            },
            Err(refused) => AnswerValues {
                number: u32::from(refused.refusal),
                index: refused.index,
                total: 0,
                errors: 0,
            },
        }
    }
}

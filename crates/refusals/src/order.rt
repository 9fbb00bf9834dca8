// Which record a refusal is told of.
ghost use Rattle.std.specs.Prelude.{◌≡◌, ◌≤◌};
ghost use Rattle.rules.specs.Refusals.{max_records};
ghost use Rattle.refusals.specs.Answers.{told_at};

use rules::{Refusal, Refused};

// The refusal, told of record `i`; an accepted length has 1,024 records at most.
pub fn refused_at(refusal: Refusal, i: usize) -> Refused
    requires { i ≤ max_records }
    ensures { result ≡ record { refusal = refusal; index = i } }
{
    Refused {
        refusal,
        index: i as u32,
    }
}

// What a step answers, told of record `i`.
pub fn told_at(step: Result<(), Refusal>, i: usize) -> Result<(), Refused>
    requires { i ≤ max_records }
    ensures { result ≡ told_at step i }
{
    step.map_err(|refusal| refused_at(refusal, i))
}

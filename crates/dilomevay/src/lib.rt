// Every function of include/vexil_check.h, for callers in other languages: the static library. A static library exports the functions that its own crate defines, so each
// stands here as one call of the function that does its work, with that function's contract.
#![tactic(auto)]

ghost use Rattle.std.specs.Prelude.{◌≡◌};
ghost use Rattle.dilomevay.specs.Version.{version};
ghost use Rattle.validate.specs.Answered.{Answered, IsBytes};

use rules::AnswerValues;

// `VEXIL_VERSION` of the header. It rises with each later change of a struct, or of a buffer that the library itself writes.
const VERSION: u32 = 1;

// The version of the library, which a caller compares with that of the header that it was built with.
#[unsafe(no_mangle)]
pub extern "C" fn vexil_version() -> u32
    ensures { result ≡ version }
{
    VERSION
}

// The check. The list gets the violations that fit it, in whole records; a call that is refused changes no byte of it.
#[unsafe(no_mangle)]
pub extern "C" fn vexil_check(sheet: &[u8], names: &[u8], list: &mut [u8]) -> AnswerValues
    ensures answered { Answered sheet.now names.now list.old result list.new }
    ensures bytes { IsBytes sheet.now }
{
    validate::vexil_check(sheet, names, list)
}

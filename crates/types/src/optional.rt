// What a condition asks of a type, which sees through optional.
ghost use Rattle.std.specs.Prelude.{◌≡◌};
ghost use Rattle.rules.specs.Words.{rest};
ghost use Rattle.rules.specs.Kind;
ghost use Rattle.rules.specs.Record.{is};
ghost use Rattle.rules.specs.Types.{is_numeric_type, is_collection_type};
ghost use Rattle.names.specs.View.{view_of};

use crate::valid::{is_delta_valid_type, is_text};
use rules::RecordRange;
use sheet::kinds;

// The records from the first that is no optional on.
fn behind_optionals(sheet: &[u8], ty: RecordRange) -> RecordRange
    ensures { view_of sheet.now result.start result.end ≡ rest (is Kind.Optional) (view_of sheet.now ty.start ty.end) }
{
    let start = (ty.start..ty.end)
        .find(|i| sheet::kind(sheet, *i) != kinds::OPTIONAL)
        .unwrap_or(ty.end);
    ty.starting_at(start)
}

// Whether the type is numeric, behind its optionals.
pub fn is_numeric_type(sheet: &[u8], ty: RecordRange) -> bool
    ensures { result ≡ is_numeric_type (view_of sheet.now ty.start ty.end) }
{
    is_delta_valid_type(sheet, behind_optionals(sheet, ty))
}

// Whether the type has a length, behind its optionals (rule 30): string, bytes, array, fixed array.
pub fn is_collection_type(sheet: &[u8], ty: RecordRange) -> bool
    ensures { result ≡ is_collection_type (view_of sheet.now ty.start ty.end) }
{
    let bare = behind_optionals(sheet, ty);
    bare.first().is_some_and(|i| {
        is_text(sheet, i) | matches!(sheet::kind(sheet, i), kinds::ARRAY | kinds::FIXED_ARRAY)
    })
}

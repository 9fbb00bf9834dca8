// Which literals a type takes as operands.
ghost use Rattle.std.specs.Prelude.{◌≡◌};
ghost use Rattle.rules.specs.Words.{within};
ghost use Rattle.rules.specs.Sub;
ghost use Rattle.rules.specs.Conditions.{length_literals, literals_of};
ghost use Rattle.names.specs.View.{view_of};
ghost use Rattle.conditions.specs.Taken.{taken};

use rules::RecordRange;
use sheet::{kinds, subs};

// Whether a type takes each kind of literal; by default, none.
#[derive(Clone, Copy, Default)]
pub struct Literals {
    pub int: bool,
    pub float: bool,
    pub string: bool,
    pub boolean: bool,
}

// Whether a primitive type of that sub is a floating point number: F32, F64.
fn is_float(sub: u8) -> bool
    ensures { result ≡ within Sub.F32 Sub.F64 sub }
{
    matches!(sub, subs::F32..=subs::F64)
}

// The literals of the type: Int behind its optionals, the others by its first record.
pub fn literals_of(sheet: &[u8], ty: RecordRange) -> Literals
    ensures { taken result ≡ literals_of (view_of sheet.now ty.start ty.end) }
{
    let int = types::is_numeric_type(sheet, ty);
    let Some(first) = ty.first() else {
        return Literals {
            int,
            ..Literals::default()
        };
    };
    let kind = sheet::kind(sheet, first);
    let sub = sheet::sub(sheet, first);
    Literals {
        int,
        float: (kind == kinds::PRIMITIVE) & is_float(sub),
        string: (kind == kinds::SEMANTIC) & (sub == subs::STRING),
        boolean: (kind == kinds::PRIMITIVE) & (sub == subs::BOOL),
    }
}

// The literals of a U64, as which the operands of len are checked.
pub fn length_literals() -> Literals
    ensures { taken result ≡ length_literals }
{
    Literals {
        int: true,
        ..Literals::default()
    }
}

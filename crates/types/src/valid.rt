// Which types an annotation may stand at, and which a geometric type may have as its element. The first record of a type decides.
ghost use Rattle.std.specs.Prelude.{◌≡◌, ℕ, Bool, ◌&&◌};
ghost use Rattle.rules.specs.Words.{first_is};
ghost use Rattle.rules.specs.Kind;
ghost use Rattle.rules.specs.Record.{is};
ghost use Rattle.rules.specs.Types.{is_varint_valid_type, is_zigzag_valid_type, is_delta_valid_type, is_text, is_limit_valid_type, is_limit_capped_type, is_valid_geometric_element_type};
ghost use Rattle.names.specs.View.{view_at, view_of};

use rules::RecordRange;
use sheet::{kinds, subs};

// Whether the type is primitive, with a sub that is one of some.
fn is_primitive<F: FnOnce(u8) -> bool>(sheet: &[u8], ty: RecordRange, is_in: F) -> bool
    requires { F.IsAlwaysCallable is_in }
    ensures { (p : ℕ → Bool) → ((sub : ℕ) (r : Bool) → F.post is_in sub r → r ≡ p sub) → result ≡ first_is (λ t. is Kind.Primitive t && p t.sub) (view_of sheet.now ty.start ty.end) }
{
    ty.first().is_some_and(|i| sheet::kind(sheet, i) == kinds::PRIMITIVE
        && is_in(sheet::sub(sheet, i)))
}

// Whether `varint` may stand at the type (rule 14): U16, U32, U64, Fixed32, Fixed64.
pub fn is_varint_valid_type(sheet: &[u8], ty: RecordRange) -> bool
    ensures { result ≡ is_varint_valid_type (view_of sheet.now ty.start ty.end) }
{
    is_primitive(sheet, ty, |sub| {
        matches!(sub, subs::U16..=subs::U64 | subs::FIXED32..=subs::FIXED64)
    })
}

// Whether `zigzag` may stand at the type (rule 15): I16, I32, I64.
pub fn is_zigzag_valid_type(sheet: &[u8], ty: RecordRange) -> bool
    ensures { result ≡ is_zigzag_valid_type (view_of sheet.now ty.start ty.end) }
{
    is_primitive(sheet, ty, |sub| matches!(sub, subs::I16..=subs::I64))
}

// Whether `delta` may stand at the type (rule 16): a primitive type but Bool and Void, or a sub-byte type.
pub fn is_delta_valid_type(sheet: &[u8], ty: RecordRange) -> bool
    ensures { result ≡ is_delta_valid_type (view_of sheet.now ty.start ty.end) }
{
    ty.first().is_some_and(|i| match sheet::kind(sheet, i) {
        kinds::PRIMITIVE => matches!(sheet::sub(sheet, i), subs::U8..=subs::FIXED64),
        kind => kind == kinds::SUB_BYTE,
    })
}

// Whether record `i` is string or bytes.
#[tactic(auto, unfolding(names::specs::View::view_at))]
pub fn is_text(sheet: &[u8], i: usize) -> bool
    ensures { result ≡ is_text (view_at sheet.now i) }
{
    (sheet::kind(sheet, i) == kinds::SEMANTIC)
        & matches!(sheet::sub(sheet, i), subs::STRING | subs::BYTES)
}

// Whether `limit` may stand at the type (rule 17): string, bytes, array, fixed array, set, map.
pub fn is_limit_valid_type(sheet: &[u8], ty: RecordRange) -> bool
    ensures { result ≡ is_limit_valid_type (view_of sheet.now ty.start ty.end) }
{
    ty.first().is_some_and(|i| {
        is_text(sheet, i) | matches!(sheet::kind(sheet, i), kinds::ARRAY..=kinds::MAP)
    })
}

// Whether the type's `limit` is capped (rule 19): those where it may stand but fixed arrays.
pub fn is_limit_capped_type(sheet: &[u8], ty: RecordRange) -> bool
    ensures { result ≡ is_limit_capped_type (view_of sheet.now ty.start ty.end) }
{
    let fixed = ty
        .first()
        .is_some_and(|i| sheet::kind(sheet, i) == kinds::FIXED_ARRAY);
    is_limit_valid_type(sheet, ty) & !fixed
}

// Whether a geometric type may have the type as its element (rule 10): F32, F64, Fixed32, Fixed64.
pub fn is_valid_geometric_element_type(sheet: &[u8], ty: RecordRange) -> bool
    ensures { result ≡ is_valid_geometric_element_type (view_of sheet.now ty.start ty.end) }
{
    is_primitive(sheet, ty, |sub| matches!(sub, subs::F32..=subs::FIXED64))
}

// Rows 3 to 5: what a record's own bytes are turned down for.
//
// Each test comes first that most records pass. No function of another file is called for each record, but for those that are compiled in.
ghost use Rattle.std.specs.Prelude.{◌≡◌, not, []};
ghost use Rattle.rules.specs.Record.{decode, fits_in};
ghost use Rattle.rules.specs.Refusals.{is_unknown, is_too_great, own_fault};
ghost use Rattle.refusals.specs.Answers.{sub_limit, own_of};

use crate::bytes::{name_end, value};
use rules::{Refusal, Sheet};
use sheet::kinds;

// What byte 1 is to be less than, if there is such a kind: how many subs the kind has; 256 for a kind without a sub, whose byte 1 may be any. An arm for
// each kind is compiled to a table, and ranges of kinds to one test after another.
// By a test of the kinds that there are and by how many subs they have, in turn, `exercise` takes 8 in 100 more instructions, and is at its aim (0.46 of the ready tree on one
// machine, 0.54 on another; the aim is 0.5).
#[tactic(auto, unfolding(rules::specs::Words::look_up))]
fn sub_limit(kind: u8) -> Option<u16>
    ensures { result ≡ sub_limit kind }
{
    match kind {
        kinds::DECLARATION => Some(10),
        kinds::IMPORTED_NAME => Some(256),
        kinds::WILDCARD => Some(256),
        kinds::HEAD => Some(5),
        kinds::FIELD => Some(256),
        kinds::FIELD_TOMBSTONE => Some(256),
        kinds::INVARIANT => Some(256),
        kinds::VARIANT => Some(256),
        kinds::TOMBSTONE => Some(256),
        kinds::BACKING => Some(4),
        kinds::ANNOTATION => Some(256),
        kinds::ARGUMENT => Some(6),
        kinds::BIT_NAME => Some(256),
        kinds::PRIMITIVE => Some(14),
        kinds::SUB_BYTE => Some(256),
        kinds::SEMANTIC => Some(6),
        kinds::NAMED => Some(256),
        kinds::QUALIFIED => Some(256),
        kinds::GENERIC => Some(256),
        kinds::OPTIONAL => Some(256),
        kinds::ARRAY => Some(256),
        kinds::FIXED_ARRAY => Some(256),
        kinds::SET => Some(256),
        kinds::MAP => Some(256),
        kinds::RESULT => Some(256),
        kinds::VEC2 => Some(256),
        kinds::VEC3 => Some(256),
        kinds::VEC4 => Some(256),
        kinds::QUAT => Some(256),
        kinds::MAT3 => Some(256),
        kinds::MAT4 => Some(256),
        kinds::BITS_INLINE => Some(256),
        kinds::AND => Some(256),
        kinds::OR => Some(256),
        kinds::NOT => Some(256),
        kinds::CMP => Some(6),
        kinds::RANGE => Some(2),
        kinds::LEN_CMP => Some(6),
        kinds::LEN_RANGE => Some(2),
        kinds::OPERAND => Some(6),
        _ => None,
    }
}

// Row 3: whether kind or sub is unknown, or byte 3 not 0.
#[tactic(auto, using(crate::proofs::OwnFaults::unknown_none, crate::proofs::OwnFaults::unknown_some))]
fn is_unknown(bytes: &[u8; Sheet::RECORD]) -> bool
    ensures { result ≡ is_unknown (decode [] bytes.now) }
{
    let Some(limit) = sub_limit(bytes[0]) else {
        return true;
    };
    !((u16::from(bytes[1]) < limit) & (bytes[3] == 0))
}

// Row 4: whether the name part ends beyond the names text.
#[tactic(auto, using(crate::proofs::OwnFaults::cut_named, crate::proofs::OwnFaults::name_fits))]
fn is_cut(bytes: &[u8; Sheet::RECORD], names: &[u8]) -> bool
    ensures { result ≡ not (fits_in names.now bytes.now) }
{
    (names.len() < name_end(bytes)) && kinds::is_named(bytes[0], bytes[1])
}

// Row 5: whether the ordinal is greater than is accepted.
#[tactic(auto, using(crate::proofs::OwnFaults::great_read, crate::proofs::OwnFaults::small_read))]
fn is_too_great(bytes: &[u8; Sheet::RECORD]) -> bool
    ensures { result ≡ is_too_great (decode [] bytes.now) }
{
    (Sheet::MAX_ORDINAL < value(bytes)) && sheet::has_ordinal(bytes[0])
}

// The fault of a record by rows 3 to 5, the lowest number first.
#[tactic(auto, using(crate::proofs::OwnFaults::own_unknown, crate::proofs::OwnFaults::own_cut, crate::proofs::OwnFaults::own_great, crate::proofs::OwnFaults::own_none))]
pub fn own_fault(bytes: &[u8; Sheet::RECORD], names: &[u8]) -> Result<(), Refusal>
    ensures { own_of result ≡ own_fault (decode names.now bytes.now) }
{
    if is_unknown(bytes) {
        return Err(Refusal::Unknown); // row 3
    }
    if is_cut(bytes, names) {
        return Err(Refusal::NameRange); // row 4
    }
    if is_too_great(bytes) {
        return Err(Refusal::OrdinalRange); // row 5
    }
    Ok(())
}

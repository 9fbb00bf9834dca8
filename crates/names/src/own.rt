// A record with its name, read from its own bytes, so that where they end is tested once.
ghost use Rattle.std.specs.Prelude.{◌≡◌, true, false, ◌/◌, ◌<◌, length, MatchOption};
ghost use Rattle.rules.specs.Record.{record_bytes, kind_in, name_in};
ghost use Rattle.names.specs.NameTable.{is_named};
ghost use Rattle.names.specs.Parts.{known_count, record_of};

use rules::Sheet;

// The bytes of record `i`, which the caller knows to be there. `sheet` has the same with a test, since what another crate can name has no `requires`.
fn own_bytes(sheet: &[u8], i: usize) -> &[u8]
    requires { i < length sheet.now / 32 }
    ensures { result.now ≡ record_bytes sheet.now i }
{
    let at = i * Sheet::RECORD;
    &sheet[at..at + Sheet::RECORD]
}

// Whether the record with these bytes has a name, and the name fits. `fits` of `sheet` would ask once more whether there is a name.
#[tactic(auto, using(crate::proofs::Numbers::named_by))]
fn is_named(own: &[u8], names: &[u8]) -> bool
    ensures { result ≡ is_named (record_of own.now names.now 0) }
{
    sheet::has_name(own, 0) && sheet::name_offset(own, 0) + sheet::name_len(own, 0) <= names.len()
}

// The name of the record with these bytes, which has one that fits: that part of the names text.
#[tactic(auto, using(crate::proofs::Numbers::name_fitting, crate::proofs::Numbers::name_by))]
fn name<'a>(own: &[u8], names: &'a [u8]) -> &'a [u8]
    requires { is_named (record_of own.now names.now 0) ≡ true }
    ensures { result.now ≡ name_in names.now (record_bytes own.now 0) }
{
    let start = sheet::name_offset(own, 0);
    let end = start + sheet::name_len(own, 0);
    &names[start..end]
}

// The name of record `i`, which has one that fits.
#[tactic(auto, using(crate::proofs::Numbers::again))]
pub fn name_at<'a>(sheet: &[u8], names: &'a [u8], i: usize) -> &'a [u8]
    requires { (i < known_count sheet.now) × (is_named (record_of sheet.now names.now i) ≡ true) }
    ensures { result.now ≡ name_in names.now (record_bytes sheet.now i) }
{
    name(own_bytes(sheet, i), names)
}

// A record that has a name that fits, and what is read of it.
#[derive(Drop)]
pub struct Named<'a> {
    pub sheet: &'a [u8],
    pub names: &'a [u8],
    pub index: usize,
    pub own: &'a [u8],
    pub kind: u8,
    pub name: &'a [u8],
    ghost known_record: { index < known_count sheet.now },
    ghost is_named: { is_named (record_of sheet.now names.now index) ≡ true },
    ghost own_is: { own.now ≡ record_bytes sheet.now index },
    ghost kind_is: { kind ≡ kind_in (record_bytes sheet.now index) },
    ghost name_is: { name.now ≡ name_in names.now (record_bytes sheet.now index) },
}

impl<'a> Named<'a> {
    // What is read of record `i`, if it has a name and the name fits.
    #[tactic(auto, using(crate::proofs::Numbers::again))]
    pub fn read(sheet: &'a [u8], names: &'a [u8], i: usize) -> Option<Self>
        requires { i < known_count sheet.now }
        ensures { MatchOption result (is_named (record_of sheet.now names.now i) ≡ false) (λ named. (named.sheet.now ≡ sheet.now) × (named.names.now ≡ names.now) × (named.index ≡ i)) }
    {
        let own = own_bytes(sheet, i);
        if !is_named(own, names) {
            return None;
        }
        Some(Named {
            sheet,
            names,
            index: i,
            own,
            kind: sheet::kind(own, 0),
            name: name(own, names),
        })
    }
}

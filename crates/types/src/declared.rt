// What a record's name is declared as.
ghost use Rattle.std.specs.Prelude.{◌≡◌};
ghost use Rattle.rules.specs.Context.{declared_as};
ghost use Rattle.names.specs.Known.{context_in};

use names::ValidationContext;

// Whether the name of record `i` is declared with that sub.
pub fn is_declared_as(context: ValidationContext, sub: u8, i: usize) -> bool
    ensures { result ≡ declared_as (context_in context.entry) sub i }
{
    context
        .declaration(i)
        .is_some_and(|d| sheet::sub(context.sheet, d) == sub)
}

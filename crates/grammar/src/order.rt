// Row 6.
ghost use Rattle.std.specs.Prelude.{◌≡◌};
ghost use Rattle.grammar.specs.Order.{in_order};

use rules::Refusal;

// A record that may stand where it does, or that is out of order.
pub fn in_order(may: bool) -> Result<(), Refusal>
    ensures { result ≡ in_order may }
{
    if may {
        return Ok(());
    }
    Err(Refusal::OutOfOrder)
}

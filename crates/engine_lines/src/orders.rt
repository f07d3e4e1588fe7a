//! What a line `submit` asks of an engine.
ghost use Rattle.std.specs.Prelude.{◌≡◌};
ghost use Rattle.engine_lines.specs.Orders.{submitted_order};

use crate::said::Asked;
use engine_inboxes::Order;
use plain::Text;
use std::alloc::Global;

/// The order of a line `submit`.
pub fn order_of(alloc: Global, asked: Asked) -> Order
    ensures { result ≡ submitted_order asked }
{
    let Asked {
        service,
        handler,
        parameter,
        key,
        idempotency_key,
        begins,
    } = asked;
    let key = match key {
        Some(key) => key,
        None => Text::empty(alloc),
    };
    Order {
        service,
        handler,
        key,
        idempotency_key,
        parameter,
        begins,
    }
}

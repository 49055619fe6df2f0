//! When all is delivered: `specs/Delivery.antt` has the statements.

ghost use Rattle.delivery_laws.specs.Delivery.{SettleDelivers, SettledIsSeen};

/// A settle before which there are tokens enough, and that breaks no route it needs, leaves nothing unacknowledged, and
/// gets all that was sent; so all that sends were accepted with was polled, or waits.
pub fn settled_delivery()
    ensures delivered { SettleDelivers }
    ensures seen { SettledIsSeen }
{}

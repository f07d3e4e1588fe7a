//! How the deliveries of one signal count for who awaits it.
ghost use Rattle.std.specs.Prelude.{◌≡◌};
ghost use Rattle.journal_values.specs.declared.delivery.SignalDelivery.TheVariants as delivery;

/// Whether several deliveries of one signal queue up or the newest replaces the others.
#[derive(Clone, Copy, Debug, PartialEq, Eq)]
pub enum SignalDelivery {
    Queued,
    Overwrite,
}

impl Default for SignalDelivery {
    ghost is_default = { λ option. option ≡ delivery.Queued };

    fn default() -> SignalDelivery {
        SignalDelivery::Queued
    }
}

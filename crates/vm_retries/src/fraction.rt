//! What an interval is multiplied by.
ghost use Rattle.std.specs.Prelude.{◌≡◌, ◌<◌, ◌↔◌, IsNone, IfSome};

/// A fraction of whole numbers, not above zero.
#[derive(Clone, Copy, Debug)]
pub struct Fraction {
    pub numerator: u32,
    pub denominator: u32,
    pub ghost divides: { 0 < denominator },
}

impl Fraction {
    /// None where the denominator is zero. It takes no memory.
    pub fn new(numerator: u32, denominator: u32) -> Option<Fraction>
        ensures none { IsNone result ↔ (denominator ≡ 0) }
        ensures parts { IfSome result (λ f. (f.numerator ≡ numerator)
            × (f.denominator ≡ denominator)) }
    {
        if denominator == 0 {
            return None;
        }
        Some(Fraction {
            numerator,
            denominator,
        })
    }
}

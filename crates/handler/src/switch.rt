// One switch's settings, good ones, as a handling asks them: settings octets that were checked, or a store's words.
ghost use Rattle.std.specs.Prelude.{ℕ, ◌≡◌};
ghost use Rattle.rules.specs.Settings.{Ways};
ghost use Rattle.handler.specs.Shapes.{Owns, ways_by, only_for};

use crate::way::{Lookup, Own};

pub trait Switch: Copy {
    // What they say, and of which destinations the way is at hand.
    ghost says: { Self → Ways };

    ghost finds: { Self → ℕ → Type 0 };

    fn own(self) -> Own
        ensures { Owns result (says self) };

    fn strip(self) -> bool
        ensures { result ≡ (says self).strip };

    fn rfc7179(self) -> bool
        ensures { result ≡ (says self).rfc7179 };

    // The way towards a destination.
    fn lookup(self, d: u16) -> Lookup
        requires { finds self d }
        ensures { ways_by result ≡ only_for d (says self) };

    // The same settings, asked for a destination.
    fn asking(self, d: u16) -> Self
        ensures same { says result ≡ says self }
        ensures found { finds result d };
}

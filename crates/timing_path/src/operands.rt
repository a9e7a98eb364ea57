//! The atoms that an expression reads.
ghost use Rattle.std.specs.Prelude.{◌≡◌};
ghost use Rattle.timing_path.specs.Arrivals.{operands};

use rtl_core::design::{Atom, Net};

/// The atoms that an expression reads. Where it reads fewer than three, the last is repeated.
pub fn operands(net: Net) -> (Atom, Atom, Atom)
    ensures { result ≡ operands net }
{
    match net {
        Net::Copy(a) | Net::Not(a) | Net::Part { of: a, .. } | Net::Word { addr: a, .. } => {
            (a, a, a)
        }
        Net::Two(_, a, b) | Net::Join(a, b) => (a, b, b),
        Net::Pick(test, a, b) => (test, a, b),
    }
}

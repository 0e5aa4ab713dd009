// The ranges of x, a and b in a format, their ends finite: what the narrowing of one sum works on. Functions take it by reference: by value a narrowing takes 3 to 6 in 100 longer.
ghost use Rattle.std.specs.Prelude.{◌≡◌};
ghost use Rattle.arith.specs.Intervals.{Bounded, reflected};

use crate::format::Format;
use crate::range::{Range, reflect};

// Three ranges in one format.
#[derive(Clone, Copy)]
pub(crate) struct Ranges {
    pub(crate) format: Format,
    pub(crate) x: Range,
    pub(crate) a: Range,
    pub(crate) b: Range,
    ghost x_ends: { Bounded format x },
    ghost a_ends: { Bounded format a },
    ghost b_ends: { Bounded format b },
}

impl Ranges {
    ghost use Rattle.arith.specs.Searches.{swapped};

    // The operands exchanged.
    pub(crate) fn swapped(&self) -> Self
        ensures { result ≡ swapped self.now }
    {
        Ranges {
            format: self.format,
            x: self.a,
            a: self.x,
            b: self.b,
        }
    }

    // Other operands for the same b.
    pub(crate) fn with_operands(&self, x: Range, a: Range) -> Self
        requires { (Bounded self.now.format x) × (Bounded self.now.format a) }
        ensures { (h : _) × (i : _) × (result ≡ record self.now { x = x; a = a; x_ends = h; a_ends = i }) }
    {
        Ranges {
            format: self.format,
            x,
            a,
            b: self.b,
        }
    }

    // Another b for the same operands.
    pub(crate) fn with_b(&self, b: Range) -> Self
        requires { Bounded self.now.format b }
        ensures { (h : _) × (result ≡ record self.now { b = b; b_ends = h }) }
    {
        Ranges {
            format: self.format,
            x: self.x,
            a: self.a,
            b,
        }
    }

    // All three mirrored.
    pub(crate) fn reflected(&self) -> Self
        ensures { (h : _) × (i : _) × (j : _) × (result ≡ record self.now {
          x = reflected self.now.format self.now.x;
          a = reflected self.now.format self.now.a;
          b = reflected self.now.format self.now.b;
          x_ends = h;
          a_ends = i;
          b_ends = j;
        }) }
    {
        Ranges {
            format: self.format,
            x: reflect(self.format, self.x),
            a: reflect(self.format, self.a),
            b: reflect(self.format, self.b),
        }
    }
}

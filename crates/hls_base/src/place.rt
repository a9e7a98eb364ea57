ghost use Rattle.std.specs.Prelude.{◌≡◌, ◌+◌, ◌<◌, ◌≤◌, ◌^◌, length, IfOk};
ghost use Rattle.hls_base.specs.TextPlaces.{next_place, place_after};

use std::alloc::{AllocError, Global};
use std::fmt;
use std::marker::Model;

/// Where a token stands: its line and column count from 1, and a column counts bytes. The part is 0 for a token of the source, and k for the k-th token that a macro name at this line and column was replaced by.
#[derive(Clone, Copy, Debug, PartialEq, Eq, PartialOrd, Ord)]
pub struct Place {
    pub line: u32,
    pub column: u32,
    pub part: u32,
}

impl fmt::Display for Place {
    ghost use Rattle.std.specs.Prelude.{Some};
    ghost use Rattle.hls_base.specs.PlaceText.{place_text};

    ghost output = { λ p. Some (place_text p) };

    fn fmt<W: fmt::Write>(&self, f: &mut fmt::Formatter<W>) -> fmt::Result {
        let line = self.line;
        let column = self.column;
        let part = self.part;
        if part == 0 {
            write!(f, "{line}:{column}")
        } else {
            write!(f, "{line}:{column}.{part}")
        }
    }
}

/// Where a text begins.
pub const TEXT_START: Place = Place {
    line: 1,
    column: 1,
    part: 0,
};

fn next_place(at: Place, byte: u8) -> Place
    requires line { at.line + 1 < 2 ^ 32 }
    requires column { at.column + 1 < 2 ^ 32 }
    ensures { result ≡ next_place at byte }
{
    if byte == b'\n' {
        Place {
            line: at.line + 1,
            column: 1,
            part: 0,
        }
    } else {
        Place {
            line: at.line,
            column: at.column + 1,
            part: 0,
        }
    }
}

/// The place just behind these bytes of a text, of which the first stands at `at`.
pub fn place_after(at: Place, bytes: &[u8]) -> Place
    requires line { at.line + length bytes.now < 2 ^ 32 }
    requires column { at.column + length bytes.now < 2 ^ 32 }
    ensures value { result ≡ place_after at bytes.now }
    ensures line { result.line ≤ at.line + length bytes.now }
    ensures column { result.column ≤ at.column + length bytes.now }
{
    let mut place = at;
    for byte in bytes {
        place = next_place(place, *byte);
    }
    place
}

/// The places of the calls that lead from the top function to a point, the outermost first.
#[derive(Drop)]
pub struct Path {
    places: Vec<Place>,
}

impl Model for Path {
    ghost use Rattle.std.specs.Prelude.{List};
    ghost use Rattle.hls_base.specs.declared.place.Place.{Place};

    ghost Value = { List Place };

    ghost view = { λ p. p.places.items };
}

impl Path {
    pub fn new(items: Vec<Place>) -> Path
        ensures { result ≡ items.items }
    {
        Path { places: items }
    }

    pub fn items(&self) -> &[Place]
        ensures { result.now ≡ self.now }
    {
        self.places.as_slice()
    }

    /// Another owner of the same places.
    pub fn copy(&self, alloc: Global) -> Result<Path, AllocError>
        ensures { IfOk result (λ p. p ≡ self.now) }
    {
        let places = Vec::from_slice(alloc, self.items())?;
        Ok(Path { places })
    }
}

//! What a reader counts from left to right.

ghost use Rattle.std.specs.Prelude.{◌≡◌};
ghost use Rattle.script_parser.specs.Grammar.{deeper, outermost};

use grammar::Fault;
use scan_text::Place;

/// How deep repetitions are nested, and how many times they come to.
#[derive(Clone, Copy)]
pub struct Nesting {
    pub depth: u32,
    pub times: u32,
}

/// Outside of all repetitions.
pub fn outermost() -> Nesting
    ensures { result ≡ outermost }
{
    Nesting { depth: 0, times: 1 }
}

/// One repetition deeper.
pub fn deeper(nesting: Nesting, place: Place) -> Result<Nesting, Fault>
    ensures { result ≡ deeper nesting place }
{
    if nesting.depth >= 256 {
        return Err(Fault::Range(place, 257));
    }
    Ok(Nesting {
        depth: nesting.depth + 1,
        times: nesting.times,
    })
}

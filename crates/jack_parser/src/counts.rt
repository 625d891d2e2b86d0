//! What a reader counts from left to right.

ghost use Rattle.std.specs.Prelude.{◌≡◌, ◌<◌};
ghost use Rattle.jack_parser.specs.Grammar.{count, deeper, fresh, one_more, so_many};

use grammar::Fault;
use scan_text::Place;

/// What a class, a subroutine or a call has at most 16,384 of.
#[derive(Clone, Copy)]
pub enum Counted {
    Static,
    Field,
    Parameter,
    Local,
    Argument,
}

/// The nesting, and how many of each there have been so far: in the class, in the subroutine, in the call.
#[derive(Clone, Copy)]
pub struct Counts {
    pub nesting: u32,
    pub statics: u32,
    pub fields: u32,
    pub parameters: u32,
    pub locals: u32,
    pub arguments: u32,
}

/// None so far, at this nesting.
pub fn fresh(nesting: u32) -> Counts
    ensures { result ≡ fresh nesting }
{
    Counts {
        nesting,
        statics: 0,
        fields: 0,
        parameters: 0,
        locals: 0,
        arguments: 0,
    }
}

/// One level deeper.
pub fn deeper(counts: Counts, place: Place) -> Result<Counts, Fault>
    ensures { result ≡ deeper counts place }
{
    if counts.nesting >= 256 {
        return Err(Fault::Range(place, 257));
    }
    Ok(fresh(counts.nesting + 1))
}

fn so_many(counted: Counted, counts: Counts) -> u32
    ensures { result ≡ so_many counted counts }
{
    match counted {
        Counted::Static => counts.statics,
        Counted::Field => counts.fields,
        Counted::Parameter => counts.parameters,
        Counted::Local => counts.locals,
        Counted::Argument => counts.arguments,
    }
}

fn one_more(counted: Counted, counts: Counts) -> Counts
    requires { so_many counted counts < 16384 }
    ensures { result ≡ one_more counted counts }
{
    let mut more = counts;
    match counted {
        Counted::Static => more.statics += 1,
        Counted::Field => more.fields += 1,
        Counted::Parameter => more.parameters += 1,
        Counted::Local => more.locals += 1,
        Counted::Argument => more.arguments += 1,
    }
    more
}

/// One more of them, at this place: at most 16,384.
pub fn count(counted: Counted, counts: Counts, place: Place) -> Result<Counts, Fault>
    ensures { result ≡ count counted counts place }
{
    if so_many(counted, counts) >= 16_384 {
        return Err(Fault::Range(place, 16_385));
    }
    Ok(one_more(counted, counts))
}

//! Texts that are put through a buffer of their own.

ghost use Rattle.std.specs.Prelude.{◌≡◌, []};
ghost use Rattle.std.specs.List.{flat_map};
ghost use Rattle.outer_world.specs.Held.{HaveSameSink, pending, sink_of};
ghost use Rattle.outer_world.specs.Written.{Puts};

use outer_world::{Pieces, Put, Sink};

// Puts these parts through a buffer that is empty before.
fn put_parts<S: Sink>(parts: &[&[u8]], pieces: &mut Pieces<'_, S>) -> Put
    requires { pending pieces.old ≡ [] }
    ensures same_sink { HaveSameSink pieces.old pieces.new }
    ensures put { Puts (S.state (sink_of pieces.old)) (S.state (sink_of pieces.new))
        (flat_map (λ part. part.now) parts.now) result }
{
    match pieces.put_all(parts) {
        Put::Done => pieces.finish(),
        Put::Failed => Put::Failed,
    }
}

/// Puts these parts.
pub(crate) fn put_through<S: Sink>(parts: &[&[u8]], sink: &mut S) -> Put
    ensures put { Puts (S.state sink.old) (S.state sink.new)
        (flat_map (λ part. part.now) parts.now) result }
{
    let mut pieces = Pieces::new(sink);
    put_parts(parts, &mut pieces)
}

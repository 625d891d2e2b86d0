use grammar::{LineKind, Placed};

/// What a token is.
#[derive(Clone, Copy)]
pub enum Kind {
    Number(u32),
    LineEnd,
}

impl LineKind for Kind {
    ghost use Rattle.key_script.specs.Tokens.{piece, is_line_end};
    ghost use Rattle.key_script.specs.declared.token.Kind.TheVariants.{LineEnd};

    ghost piece = { piece };

    ghost line_end_kind = { LineEnd };

    ghost is_line_end = { is_line_end };

    fn line_end() -> Kind {
        Kind::LineEnd
    }

    fn is_line_end(self) -> bool {
        matches!(self, Kind::LineEnd)
    }
}

/// A token, and the place where it begins.
pub type Token = Placed<Kind>;

//! A text line by line.

ghost use Rattle.std.specs.Prelude.{◌≡◌, ◌+◌, ◌<◌, ◌^◌, [], ◌∷◌, length, MatchOption, position};
ghost use Rattle.lpis_cert.specs.Faults.{is_lf, lines};
ghost use Rattle.lpis_cert.specs.private.Taken.{TakesLine};

/// What is left of a text, and the number of its first line.
#[derive(Clone, Copy)]
pub(crate) struct Rest<'a> {
    pub text: &'a [u8],
    pub line: u64,
    pub ghost room: { line + length text.now < 2 ^ 64 },
}

/// The first line, and what comes after its end.
pub(crate) fn front_line(rest: Rest<'_>) -> Option<(&[u8], Rest<'_>)>
    ensures { MatchOption result (lines rest.entry.text.now ≡ rest.entry.text.now ∷ [])
        (λ x. TakesLine rest.entry.text.now rest.entry.line x.0.now x.1.text.now x.1.line) }
{
    match line_end(rest.text) {
        None => None,
        Some(at) => Some((
            &rest.text[..at],
            Rest {
                text: &rest.text[at + 1..],
                line: rest.line + 1,
            },
        )),
    }
}

fn line_end(text: &[u8]) -> Option<usize>
    ensures { result ≡ position is_lf text.now }
{
    text.iter().position(|b| *b == b'\n')
}

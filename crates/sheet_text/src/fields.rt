// The fields of a line.
ghost use Rattle.std.specs.Prelude.{◌≡◌, [], ◌∷◌, MatchOption};
ghost use Rattle.sheet_text.specs.Fields.{is_blank, said, fields};

const HASH: u8 = b'#';

// Whether a byte stands between fields. A carriage return does, so that a line may end with one.
pub(crate) fn is_blank(byte: u8) -> bool
    ensures { result ≡ is_blank byte }
{
    matches!(byte, b' ' | b'\t' | b'\r')
}

// A line up to its comment.
pub(crate) fn said(line: &[u8]) -> &[u8]
    ensures { result.now ≡ said line.now }
{
    let end = line.iter().position(|byte| *byte == HASH);
    &line[..end.unwrap_or(line.len())]
}

// The first field, and what follows it, or `None` where no field is left.
pub(crate) fn split_field(bytes: &[u8]) -> Option<(&[u8], &[u8])>
    ensures { MatchOption result (fields bytes.now ≡ []) (λ p. fields bytes.now ≡ p.0.now ∷ fields p.1.now) }
{
    let start = bytes.iter().position(|byte| !is_blank(*byte))?;
    let bytes = &bytes[start..];
    let end = bytes.iter().position(|byte| is_blank(*byte));
    Some(bytes.split_at(end.unwrap_or(bytes.len())))
}

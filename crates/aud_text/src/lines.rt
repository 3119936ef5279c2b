// Lines.

ghost use Rattle.std.specs.Prelude.{◌≡◌};
ghost use Rattle.aud_text.specs.Lines.{line_count};

/// How many line feeds the text has.
pub fn line_count(text: &[u8]) -> usize
    ensures { result ≡ line_count text.now }
{
    text.iter().filter(|byte| **byte == b'\n').count()
}

// Tables of the names that the language knows.

ghost use Rattle.std.specs.Prelude.{◌≡◌};
ghost use Rattle.std.specs.Map.{lookup};
ghost use Rattle.std.specs.Str.{bytes_eq};
ghost use Rattle.aud_names.specs.Ties.Table.{plain_table};

use aud_text::name::Name;

/// What a table has a name stand for. The spellings are in capitals.
pub fn listed<T: Copy>(mut table: &[(&[u8], T)], name: &Name) -> Option<T>
    ensures { result ≡ lookup (bytes_eq name.now) (plain_table table.entry.now) }
{
    while let [(spelling, meant), others @ ..] = table {
        if name.as_bytes() == *spelling {
            return Some(*meant);
        }
        table = others;
    }
    None
}

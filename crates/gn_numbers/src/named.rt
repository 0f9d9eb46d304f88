//! Reading a name by a table.

ghost use Rattle.std.specs.Prelude.{◌≡◌, map};
ghost use Rattle.gn_numbers.specs.Names.{named};

/// The value whose name a field is, the first of the rows.
pub(crate) fn named<T: Copy>(mut rows: &[(&str, T)], field: &[u8]) -> Option<T>
    ensures { result ≡ named (map (λ row. (row.0.now, row.1)) rows.entry.now) field.now }
{
    while let [row, rest @ ..] = rows {
        if field == row.0.as_bytes() {
            return Some(row.1);
        }
        rows = rest;
    }
    None
}

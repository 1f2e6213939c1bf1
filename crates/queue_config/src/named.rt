//! Tables of names.

ghost use Rattle.std.specs.Prelude.{◌≡◌, map, option_map};
ghost use Rattle.std.specs.List.{find};
ghost use Rattle.std.specs.Str.{bytes_eq};
ghost use Rattle.queue_config.specs.Named.{named_in};

/// Whether a row has the name.
fn has_name<T: Copy>(row: &(&str, T), name: &str) -> bool
    ensures { result ≡ bytes_eq name.now row.now.0.now }
{
    name == row.0
}

/// What stands in the first row that has the name.
fn first_named<T: Copy>(rows: &[(&str, T)], name: &str) -> Option<T>
    ensures { result ≡ option_map (λ row. row.1) (find (λ row. bytes_eq name.now row.0.now) rows.now) }
{
    match rows.iter().find(|row| has_name(row, name)) {
        Some(row) => Some(row.1),
        None => None,
    }
}

/// What stands under a name in a table. Case counts.
pub fn named_in<T: Copy>(rows: &[(&str, T)], name: &str) -> Option<T>
    ensures { result ≡ named_in (map (λ row. (row.0.now, row.1)) rows.now) name.now }
{
    first_named(rows, name)
}

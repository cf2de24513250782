//! A table of a number for each key: of those set for a key, the last one.

ghost use Rattle.std.specs.Prelude.{◌≡◌, Some};
ghost use Rattle.cert_checker.specs.steps.KeyTable.{has_number};

/// As many keys as serve: the orders of nodes are from 1 to 4,096, and their blocks are below that.
pub(crate) const KEYS: usize = 4097;

/// Puts down a number for a key, if the table has the key.
pub(crate) fn set_number(table: &mut [u16], key: u16, number: u16) {
    let key = key as usize;
    if key < table.len() {
        table[key] = number;
    }
}

/// Whether the table has this number for the key.
pub(crate) fn has_number(table: &[u16], key: u16, number: u16) -> bool
    ensures { result ≡ has_number table.now (Some key) (Some number) }
{
    match table.get(key as usize) {
        None => false,
        Some(told) => *told == number,
    }
}

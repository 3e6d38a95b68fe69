//! The bytes of a name that are looked at before `url` is asked.

ghost use Rattle.std.specs.Prelude.{◌≡◌, ◌==◌};
ghost use Rattle.std.specs.List.{list_all, list_any};
ghost use Rattle.wasi_names.specs.Names.{is_bare_byte, is_barred_byte, is_colon, is_bracketed};

/// Whether the name is made of hex digits, `:` and `.` alone.
pub(crate) fn is_bare(name: &str) -> bool
    ensures { result ≡ list_all is_bare_byte name.now }
{
    name.as_bytes()
        .iter()
        .all(|b| b.is_ascii_hexdigit() || *b == b':' || *b == b'.')
}

/// Whether the name holds a byte that ends a host or that `url` would skip.
pub(crate) fn has_barred_byte(name: &str) -> bool
    ensures { result ≡ list_any is_barred_byte name.now }
{
    name.as_bytes().iter().any(|b| matches!(
        *b,
        b'\t' | b'\n' | b'\r' | b'/' | b'\\' | b'?' | b'#' | b'@'
    ))
}

/// Whether the name holds a `:`.
pub(crate) fn has_colon(name: &str) -> bool
    ensures { result ≡ list_any is_colon name.now }
{
    name.as_bytes().iter().any(|b| *b == b':')
}

/// Whether the name begins with `[` and ends with `]`.
pub(crate) fn is_in_brackets(name: &str) -> bool
    ensures { result ≡ is_bracketed name.now }
{
    let bytes = name.as_bytes();
    match (bytes.first(), bytes.last()) {
        (Some(first), Some(last)) => *first == b'[' && *last == b']',
        _ => false,
    }
}

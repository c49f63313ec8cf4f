//! Plain names, which may be written without quotes.

ghost use Rattle.std.specs.Prelude.{◌≡◌};
ghost use Rattle.std.specs.List.{list_all};
ghost use Rattle.rx_term.specs.Name.{starts_name, continues_name, plain_name};

/// Returns whether a name is plain: a letter or `_`, followed by letters, digits or `_-+*$.`.
pub fn plain_name(name: &[u8]) -> bool
    ensures { result ≡ plain_name name.now }
{
    match name.split_first() {
        None => false,
        Some((first, rest)) => begins_plain_name(*first) && all_continue(rest),
    }
}

/// Returns whether each byte can continue a plain name.
fn all_continue(bytes: &[u8]) -> bool
    ensures { result ≡ list_all continues_name bytes.now }
{
    bytes.iter().all(|byte| continues_plain_name(*byte))
}

/// Returns whether a plain name can begin with this byte: an ASCII letter or `_`.
pub fn begins_plain_name(byte: u8) -> bool
    ensures { result ≡ starts_name byte }
{
    byte >= b'A' && byte <= b'Z' || byte >= b'a' && byte <= b'z' || byte == b'_'
}

/// Returns whether a plain name can continue with this byte: a letter, a digit or one of `_-+*$.`.
pub fn continues_plain_name(byte: u8) -> bool
    ensures { result ≡ continues_name byte }
{
    begins_plain_name(byte)
        || byte >= b'0' && byte <= b'9'
        || byte == b'-'
        || byte == b'+'
        || byte == b'*'
        || byte == b'$'
        || byte == b'.'
}

//! Names with a number of arguments, as `clpfd` writes them.

ghost use Rattle.std.specs.Prelude.{◌≡◌};
ghost use Rattle.char_tokens.specs.Views.{kind_of};
ghost use Rattle.clpwhere.specs.Functors.{arity_part, is_functor, is_name, is_name_kind, name_part};

use crate::refusal::place_in;
use crate::text::behind_byte;
use char_tokens::{Kind, Scanner};

/// Whether a token of this kind is a name, perhaps in quotes.
fn is_name_kind(kind: Kind) -> bool
    ensures { result ≡ is_name_kind (kind_of kind) }
{
    matches!(kind, Kind::Word | Kind::Quoted)
}

/// Whether these bytes are one name.
fn is_name(bytes: &[u8]) -> bool
    ensures { result ≡ is_name bytes.now }
{
    let Ok(text) = std::str::from_utf8(bytes) else {
        return false;
    };
    match Scanner::new(text).next_token() {
        Ok(Some(token)) => token.text.len() == text.len() && is_name_kind(token.kind),
        Ok(None) | Err(_) => false,
    }
}

/// What stands behind the last `/`.
fn arity_part(bytes: &[u8]) -> &[u8]
    ensures { result.now ≡ arity_part bytes.now }
{
    behind_byte(bytes, b'/')
}

/// What stands before it.
pub(crate) fn name_part(bytes: &[u8]) -> &[u8]
    ensures { result.now ≡ name_part bytes.now }
{
    let arity = arity_part(bytes);
    &bytes[..bytes.len().saturating_sub(arity.len().saturating_add(1))]
}

/// Whether these bytes are a name, `/` and a number.
pub(crate) fn is_functor(bytes: &[u8]) -> bool
    ensures { result ≡ is_functor bytes.now }
{
    is_name(name_part(bytes)) && place_in(arity_part(bytes)).is_some()
}

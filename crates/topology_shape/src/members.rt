//! Members of one object.
ghost use Rattle.std.specs.Prelude.{◌≡◌, ℕ, List, map, IfSome, IfNone, codes};
ghost use Rattle.serde_json.specs.Data.{Data};
ghost use Rattle.serde_json.specs.View.{view};
ghost use Rattle.merlin_base.specs.Lexemes.{IsMac, IsIp};
ghost use Rattle.topology_shape.specs.Json.{HasText, HasItems};
ghost use Rattle.topology_shape.specs.Format.{HasName, HasLexeme, HasNumberUpTo};

use merlin_base::{ip_value, is_name, mac_value};
use serde_json::Value;

/// The text under a key.
pub(crate) fn text_under<'v>(value: &'v Value, key: &str) -> Option<&'v str>
    ensures some { IfSome result (λ text. HasText key.now (view value.now) text.now) }
    ensures none { IfNone result ((text : List ℕ) → ¬ HasText key.now (view value.now) text) }
{
    value.get(key).and_then(Value::as_str)
}

/// The elements of the array under a key.
pub(crate) fn items_under<'v>(value: &'v Value, key: &str) -> Option<&'v Vec<Value>>
    ensures some { IfSome result (λ items.
        HasItems key.now (view value.now) (map view items.now.items)) }
    ensures none { IfNone result ((items : List Data) → ¬ HasItems key.now (view value.now) items) }
{
    value.get(key).and_then(Value::as_array)
}

/// The number under a key, if it is within a limit.
pub(crate) fn number_up_to(value: &Value, key: &str, limit: u64) -> Option<u64>
    ensures some { IfSome result (HasNumberUpTo limit key.now (view value.now)) }
    ensures none { IfNone result ((n : ℕ) → ¬ HasNumberUpTo limit key.now (view value.now) n) }
{
    match value.get(key).and_then(Value::as_u64)? {
        number if number <= limit => Some(number),
        _ => None,
    }
}

/// The Ethernet address under a key.
pub(crate) fn mac_under(value: &Value, key: &str) -> Option<u64>
    ensures some { IfSome result (HasLexeme IsMac key.now (view value.now)) }
    ensures none { IfNone result ((n : ℕ) → ¬ HasLexeme IsMac key.now (view value.now) n) }
{
    mac_value(text_under(value, key)?.as_bytes())
}

/// The IPv4 address under a key.
pub(crate) fn ip_under(value: &Value, key: &str) -> Option<u32>
    ensures some { IfSome result (HasLexeme IsIp key.now (view value.now)) }
    ensures none { IfNone result ((n : ℕ) → ¬ HasLexeme IsIp key.now (view value.now) n) }
{
    ip_value(text_under(value, key)?.as_bytes())
}

/// The name of what an object describes.
pub(crate) fn name_under(value: &Value) -> Option<&[u8]>
    ensures some { IfSome result (λ name. HasName (view value.now) name.now) }
    ensures none { IfNone result ((name : List ℕ) → ¬ HasName (view value.now) name) }
{
    let name = text_under(value, "name")?.as_bytes();
    if is_name(name) { Some(name) } else { None }
}

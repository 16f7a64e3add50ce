//! Values of the data. One that is absent, or of another type, is taken as empty.
use toml::Value;

/// A text.
pub(crate) fn text(value: Option<&Value>) -> &str {
    match value {
        Some(Value::String(text)) => text.as_str(),
        _ => "",
    }
}

/// A number.
pub(crate) fn number(value: Option<&Value>) -> u64 {
    match value {
        Some(Value::Integer(number)) => u64::try_from(*number).unwrap_or(0),
        _ => 0,
    }
}

/// The items of a list.
pub(crate) fn list(value: Option<&Value>) -> &[Value] {
    match value {
        Some(Value::Array(items)) => items.as_slice(),
        _ => &[],
    }
}

/// Two texts.
pub(crate) fn pair(value: &Value) -> (&str, &str) {
    match list(Some(value)) {
        [first, second] => (text(Some(first)), text(Some(second))),
        _ => ("", ""),
    }
}

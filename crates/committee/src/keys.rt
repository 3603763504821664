//! Reads the members' keys.

ghost use Rattle.std.specs.Prelude.{◌≡◌, ◌≢◌, ◌<◌, true, false, map, IsTrue, IfOk, IfErr};
ghost use Rattle.std.specs.List.{list_all, list_any, filter_map};
ghost use Rattle.toml.specs.View.{view};
ghost use Rattle.committee.specs.Keys.{is_digit, digit_value, key_in, key_of, is_no_key, repeats};

use crate::error::CommitteeError;
use std::alloc::Global;
use toml::Value;
use wire::Key;

/// How many hexadecimal digits a key has: two for each byte.
const KEY_DIGITS: usize = 64;

fn is_digit(byte: u8) -> bool
    ensures { result ≡ is_digit byte }
{
    matches!(byte, b'0'..=b'9' | b'a'..=b'f')
}

fn digit_value(byte: u8) -> u8
    requires { IsTrue (is_digit byte) }
    ensures value { result ≡ digit_value byte }
    ensures small { result < 16 }
{
    if byte <= b'9' {
        byte - b'0'
    } else {
        byte - b'a' + 10
    }
}

fn are_digits(text: &[u8]) -> bool
    ensures { result ≡ list_all is_digit text.now }
{
    text.iter().all(|byte| is_digit(*byte))
}

fn key_in(text: &[u8]) -> Option<Key>
    ensures { result ≡ key_in text.now }
{
    if text.len() != KEY_DIGITS || !are_digits(text) {
        return None;
    }
    let mut bytes = [0; 32];
    for i in 0..32usize {
        bytes[i] = 16 * digit_value(text[2 * i]) + digit_value(text[2 * i + 1]);
    }
    Some(Key(bytes))
}

fn key_of(element: &Value) -> Option<Key>
    ensures { result ≡ key_of (view element.now) }
{
    match element.as_str() {
        Some(text) => key_in(text.as_bytes()),
        None => None,
    }
}

/// The keys in the list of members. `BadKey` if an element of the list is no key.
pub(crate) fn keys_of(alloc: Global, elements: &[Value]) -> Result<Vec<Key>, CommitteeError>
    ensures each { IfOk result (λ _. list_any is_no_key (map view elements.now) ≡ false) }
    ensures keys { IfOk result (λ keys. keys.items ≡ filter_map key_of (map view elements.now)) }
    ensures cause { IfErr result (λ error. error ≢ CommitteeError.Memory → list_any is_no_key (map view elements.now) ≡ true) }
    ensures error { IfErr result (λ error. error ≢ CommitteeError.Memory → error ≡ CommitteeError.BadKey) }
{
    let mut keys = Vec::new(alloc);
    for element in elements {
        match key_of(element) {
            Some(key) => keys.push(key)?,
            None => return Err(CommitteeError::BadKey),
        }
    }
    Ok(keys)
}

/// Whether some key occurs twice.
pub(crate) fn repeats(keys: &[Key]) -> bool
    ensures { result ≡ repeats keys.now }
{
    for (i, key) in keys.iter().enumerate() {
        if keys[i + 1..].contains(key) {
            return true;
        }
    }
    false
}

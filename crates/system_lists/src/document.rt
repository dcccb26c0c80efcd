//! Documents: what lists and manifests of JSON have in common.

ghost use Rattle.std.specs.Prelude.{◌≡◌, ◌⊎◌, codes, Some, None, Ok, Err, IfOk, IfErr, option_and_then};
ghost use Rattle.serde_json.specs.Find.{get, as_str, as_number, as_u64, as_object};
ghost use Rattle.serde_json.specs.View.{view};
ghost use Rattle.system_lists.specs.Document.{value_in, is_version_one, is_one, is_text_one, is_number_one, fault_of, document_in};

use serde_json::Value;
use std::alloc::Global;

/// Why a text is no document. They are judged in this order.
#[derive(Clone, Copy, Debug, PartialEq, Eq)]
pub enum DocumentFault {
    /// The text is no JSON object.
    Json,
    /// The version is neither the string `1` nor the number 1.
    Version,
    NoMemory,
}

/// Reads a document: a JSON object of version 1.
pub fn read_document(alloc: Global, bytes: &[u8]) -> Result<Value, DocumentFault>
    ensures found { IfOk result (λ value. document_in bytes.now ≡ Ok (view value)) }
    ensures fault { IfErr result (λ fault. (fault ≡ DocumentFault.NoMemory)
        ⊎ (document_in bytes.now ≡ Err fault)) }
{
    let value = value_of(alloc, bytes)?;
    match fault_of(&value) {
        Some(fault) => Err(fault),
        None => Ok(value),
    }
}

// The value in the text.
fn value_of(alloc: Global, bytes: &[u8]) -> Result<Value, DocumentFault>
    ensures found { IfOk result (λ value. value_in bytes.now ≡ Some (view value)) }
    ensures none { IfErr result (λ fault. (fault ≡ DocumentFault.NoMemory)
        ⊎ ((fault ≡ DocumentFault.Json) × (value_in bytes.now ≡ None))) }
{
    let Ok(text) = str::from_utf8(bytes) else {
        return Err(DocumentFault::Json);
    };
    match Value::from_str(alloc, text) {
        Ok(value) => Ok(value),
        Err(e) => {
            if e.is_memory() {
                Err(DocumentFault::NoMemory)
            } else {
                Err(DocumentFault::Json)
            }
        }
    }
}

// Why the value is no object of version 1, if it is none.
fn fault_of(value: &Value) -> Option<DocumentFault>
    ensures { result ≡ fault_of (view value.now) (as_object (view value.now)) }
{
    if value.as_object().is_none() {
        return Some(DocumentFault::Json);
    }
    if has_version_one(value) {
        None
    } else {
        Some(DocumentFault::Version)
    }
}

fn has_version_one(value: &Value) -> bool
    ensures { result ≡ is_version_one (get (codes "version") (view value.now)) }
{
    match value.get("version") {
        Some(version) => is_one(version),
        None => false,
    }
}

// The string `1` or the number 1.
fn is_one(value: &Value) -> bool
    ensures { result ≡ is_one (view value.now) }
{
    is_text_one(value) || is_number_one(value)
}

fn is_text_one(value: &Value) -> bool
    ensures { result ≡ is_text_one (as_str (view value.now)) }
{
    match value.as_str() {
        Some(text) => text == "1",
        None => false,
    }
}

fn is_number_one(value: &Value) -> bool
    ensures { result ≡ is_number_one (option_and_then as_u64 (as_number (view value.now))) }
{
    match value.as_u64() {
        Some(n) => n == 1,
        None => false,
    }
}

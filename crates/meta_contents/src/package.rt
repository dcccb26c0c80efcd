ghost use Rattle.std.specs.Prelude.{◌≡◌, ◌⊎◌, Err, Some, None, IfOk, IfErr};
ghost use Rattle.std.specs.Option.{option_map};
ghost use Rattle.serde_json.specs.Find.{as_object};
ghost use Rattle.serde_json.specs.View.{view};
ghost use Rattle.meta_contents.specs.Package.{package_of, object_in, string_at, named};

use crate::fault::PackageNameFault;
use pkg_names::Texts;
use serde_json::Value;
use std::alloc::Global;

/// The name and the version that a package gives itself.
#[derive(Debug, Drop)]
pub struct PackageName {
    pub name: Texts,
    pub version: Texts,
}

/// Reads the object with the strings `name` and `version`. Other members are passed over.
pub fn read_package(alloc: Global, bytes: &[u8]) -> Result<PackageName, PackageNameFault>
    ensures exact { (result ≡ package_of bytes.now) ⊎ (result ≡ Err PackageNameFault.NoMemory) }
{
    let value = value_in(alloc, bytes)?;
    named(alloc, &value)
}

// The value in the text.
fn value_in(alloc: Global, bytes: &[u8]) -> Result<Value, PackageNameFault>
    ensures found { IfOk result (λ value. object_in bytes.now ≡ Some (view value)) }
    ensures none { IfErr result (λ fault. (fault ≡ PackageNameFault.NoMemory)
        ⊎ ((fault ≡ PackageNameFault.Json) × (object_in bytes.now ≡ None))) }
{
    let Ok(text) = str::from_utf8(bytes) else {
        return Err(PackageNameFault::Json);
    };
    match Value::from_str(alloc, text) {
        Ok(value) => Ok(value),
        Err(e) => {
            if e.is_memory() {
                Err(PackageNameFault::NoMemory)
            } else {
                Err(PackageNameFault::Json)
            }
        }
    }
}

fn named(alloc: Global, value: &Value) -> Result<PackageName, PackageNameFault>
    ensures { (result ≡ named (view value.now) (as_object (view value.now)))
        ⊎ (result ≡ Err PackageNameFault.NoMemory) }
{
    if value.as_object().is_none() {
        return Err(PackageNameFault::Json);
    }
    let Some(name) = string_at(value, "name") else {
        return Err(PackageNameFault::Field);
    };
    let Some(version) = string_at(value, "version") else {
        return Err(PackageNameFault::Field);
    };
    Ok(PackageName {
        name: Texts::make(String::from_str(alloc, name)?),
        version: Texts::make(String::from_str(alloc, version)?),
    })
}

// The string at a member.
fn string_at<'a>(value: &'a Value, name: &str) -> Option<&'a str>
    ensures { option_map (λ s. s.now) result ≡ string_at name.now (view value.now) }
{
    value.get(name)?.as_str()
}

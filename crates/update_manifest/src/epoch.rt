ghost use Rattle.std.specs.Prelude.{◌≡◌, ◌⊎◌, codes, Err, option_and_then};
ghost use Rattle.serde_json.specs.Find.{get, as_number, as_u64};
ghost use Rattle.serde_json.specs.View.{view};
ghost use Rattle.update_manifest.specs.Epoch.{epoch_of, epoch_in};

use serde_json::Value;
use std::alloc::Global;
use system_lists::{ManifestFault, read_document};

/// Reads `epoch.json`: the grammar of `docs/update_manifests.md`.
pub fn read_epoch(alloc: Global, bytes: &[u8]) -> Result<u64, ManifestFault>
    ensures exact { (result ≡ epoch_in bytes.now) ⊎ (result ≡ Err ManifestFault.NoMemory) }
{
    let value = read_document(alloc, bytes)?;
    epoch_of(&value)
}

fn epoch_of(value: &Value) -> Result<u64, ManifestFault>
    ensures { result
        ≡ epoch_of (option_and_then as_u64 (option_and_then as_number (get (codes "epoch") (view value.now)))) }
{
    let Some(epoch) = value.get("epoch") else {
        return Err(ManifestFault::Json);
    };
    epoch.as_u64().ok_or(ManifestFault::Json)
}

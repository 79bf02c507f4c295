//! What a last sector says, or why it says nothing.

ghost use Rattle.std.specs.Prelude.{◌≡◌, IfOk};
ghost use Rattle.std.specs.String.{string_bytes};
ghost use Rattle.serde_json.specs.View.{members_view, view};
ghost use Rattle.gm_json.specs.Fields.{members_of};
ghost use Rattle.gm_json.specs.Sectors.{decode_data, decode_json, first_fields, metadata_data, metadata_json, provider_name};

use crate::text::{put_text, text_of};
use gm_metadata::{DecodeFault, Metadata};
use serde_json::{Map, Value, json, put};
use std::alloc::{AllocError, Global};

// The provider that a component was hardcoded for.
fn provider_name(metadata: &Metadata) -> &str
    ensures { result.now ≡ provider_name metadata.now.provider }
{
    match &metadata.provider {
        Some(name) => name.as_str(),
        None => "",
    }
}

// The members from `all` to `mid`.
fn first_members(alloc: Global, m: &Metadata) -> Result<Map<String, Value>, AllocError>
    ensures { IfOk result (λ map. members_view map.entries ≡ members_of (first_fields m.now)) }
{
    let mut map = Map::new(alloc);
    put(&mut map, alloc, "all", Value::from(m.all))?;
    put_text(&mut map, alloc, "balance", m.balance.name())?;
    put(&mut map, alloc, "dflags", Value::from(m.dflags.bits()))?;
    put(&mut map, alloc, "did", Value::from(m.did))?;
    put(&mut map, alloc, "genid", Value::from(m.genid))?;
    put(&mut map, alloc, "mediasize", Value::from(m.mediasize))?;
    put(&mut map, alloc, "mflags", Value::from(m.mflags.bits()))?;
    put(&mut map, alloc, "mid", Value::from(m.mid))?;
    Ok(map)
}

fn metadata_value(alloc: Global, m: &Metadata) -> Result<Value, AllocError>
    ensures { IfOk result (λ v. view v ≡ metadata_data m.now) }
{
    let mut map = first_members(alloc, m)?;
    put_text(&mut map, alloc, "name", m.name.as_str())?;
    put(&mut map, alloc, "priority", Value::from(m.priority))?;
    put_text(&mut map, alloc, "provider", provider_name(m))?;
    put(&mut map, alloc, "provsize", Value::from(m.provsize))?;
    put(&mut map, alloc, "slice", Value::from(m.slice))?;
    put(&mut map, alloc, "sync_offset", Value::from(m.sync_offset))?;
    put(&mut map, alloc, "syncid", Value::from(m.syncid))?;
    Ok(Value::Object(map))
}

fn decode_value(alloc: Global, fault: DecodeFault) -> Result<Value, AllocError>
    ensures { IfOk result (λ v. view v ≡ decode_data fault) }
{
    json!(in alloc; {"decode": fault.number()})
}

/// What a last sector says: flags are numbers, sizes are in bytes, and the provider is empty if
/// the sector names none.
pub fn metadata_json(alloc: Global, metadata: &Metadata) -> Result<String, AllocError>
    ensures { IfOk result (λ text. string_bytes text ≡ metadata_json metadata.now) }
{
    let value = metadata_value(alloc, metadata)?;
    text_of(alloc, &value)
}

/// Why a last sector isn't metadata, by the number of the fault.
pub fn decode_json(alloc: Global, fault: DecodeFault) -> Result<String, AllocError>
    ensures { IfOk result (λ text. string_bytes text ≡ decode_json fault) }
{
    let value = decode_value(alloc, fault)?;
    text_of(alloc, &value)
}

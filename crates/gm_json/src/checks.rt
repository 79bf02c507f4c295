//! What is told of a check: how the mirrors stand, and what was found beside that.

ghost use Rattle.std.specs.Prelude.{◌≡◌, IfOk, map};
ghost use Rattle.std.specs.String.{string_bytes};
ghost use Rattle.serde_json.specs.View.{items_of, items_view, view};
ghost use Rattle.serde_json.specs.Data.{string};
ghost use Rattle.gm_json.specs.Audits.{difference_data, differing, uncompared};
ghost use Rattle.gm_json.specs.Checks.{check_data, check_json, claim_data, unlike_data, usage_data};

use crate::audits::{differing_values, uncompared_values};
use crate::mirrors::standing_mirrors;
use crate::text::text_of;
use gm_commands::MAX_COMMANDS;
use gm_looks::Unlike;
use gm_state::MAX_MIRRORS;
use gm_unlike::{Checkup, Claim, told_standing};
use serde_json::{Value, json};
use std::alloc::{AllocError, Global};

fn unlike_value(alloc: Global, unlike: &Unlike) -> Result<Value, AllocError>
    ensures { IfOk result (λ v. view v ≡ unlike_data unlike.now) }
{
    let image = unlike.provider.as_str();
    let standing = told_standing(unlike.standing);
    json!(in alloc; {"image": image, "standing": standing})
}

fn unlike_values(alloc: Global, list: &[Unlike]) -> Result<Vec<Value>, AllocError>
    ensures { IfOk result (λ vs. items_view vs.items ≡ items_of (map unlike_data list.now)) }
{
    let mut values = Vec::new(alloc);
    for unlike in list {
        values.push(unlike_value(alloc, unlike)?)?;
    }
    Ok(values)
}

fn claim_value(alloc: Global, claim: &Claim) -> Result<Value, AllocError>
    ensures { IfOk result (λ v. view v ≡ claim_data claim.now) }
{
    let mirror = claim.mirror.as_str();
    let name = claim.provider.as_str();
    json!(in alloc; {"given_up": claim.is_given_up, "mirror": mirror, "name": name})
}

fn claim_values(alloc: Global, list: &[Claim]) -> Result<Vec<Value>, AllocError>
    ensures { IfOk result (λ vs. items_view vs.items ≡ items_of (map claim_data list.now)) }
{
    let mut values = Vec::new(alloc);
    for claim in list {
        values.push(claim_value(alloc, claim)?)?;
    }
    Ok(values)
}

// How much of the registry is used, and how much it takes.
fn usage_value(alloc: Global, found: &Checkup<'_>) -> Result<Value, AllocError>
    ensures { IfOk result (λ v. view v ≡ usage_data found.now) }
{
    let renew = found.renewal().word();
    json!(in alloc; {
        "bytes": found.bytes,
        "commands": found.commands,
        "commands_of": MAX_COMMANDS,
        "mirrors": found.state.mirrors().len() as u64,
        "mirrors_of": MAX_MIRRORS as u64,
        "renew": renew,
    })
}

// What is told of images, list by list.
#[derive(Drop)]
struct ImageValues {
    amiss: Vec<Value>,
    claims: Vec<Value>,
    differ: Vec<Value>,
    uncompared: Vec<Value>,
}

fn image_values(alloc: Global, found: &Checkup<'_>) -> Result<ImageValues, AllocError>
    ensures amiss { IfOk result (λ it. items_view it.amiss.items
        ≡ items_of (map unlike_data found.now.unlike.now)) }
    ensures claims { IfOk result (λ it. items_view it.claims.items
        ≡ items_of (map claim_data found.now.claims.now)) }
    ensures differ { IfOk result (λ it. items_view it.differ.items ≡ items_of
        (map (difference_data (differing found.now.flaws.now)) (differing found.now.flaws.now))) }
    ensures uncompared { IfOk result (λ it. items_view it.uncompared.items
        ≡ items_of (map string (uncompared found.now.flaws.now))) }
{
    let amiss = unlike_values(alloc, found.unlike)?;
    let claims = claim_values(alloc, found.claims)?;
    let differ = differing_values(alloc, found.flaws)?;
    let uncompared = uncompared_values(alloc, found.flaws)?;
    Ok(ImageValues {
        amiss,
        claims,
        differ,
        uncompared,
    })
}

fn check_value(alloc: Global, found: &Checkup<'_>) -> Result<Value, AllocError>
    ensures { IfOk result (λ v. view v ≡ check_data found.now) }
{
    let images = image_values(alloc, found)?;
    let mirrors = standing_mirrors(alloc, found.state)?;
    let registry = usage_value(alloc, found)?;
    json!(in alloc; {
        "amiss": images.amiss,
        "claims": images.claims,
        "differ": images.differ,
        "mirrors": mirrors,
        "pending": found.pending as u64,
        "registry": registry,
        "uncompared": images.uncompared,
        "well": found.is_well(),
    })
}

/// What a check found, with the mirrors as the status has them.
pub fn check_json(alloc: Global, found: &Checkup<'_>) -> Result<String, AllocError>
    ensures { IfOk result (λ text. string_bytes text ≡ check_json found.now) }
{
    let value = check_value(alloc, found)?;
    text_of(alloc, &value)
}

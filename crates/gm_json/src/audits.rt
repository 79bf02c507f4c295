//! What is told of components that were looked at: by an audit, or by a comparison of data.

ghost use Rattle.std.specs.Prelude.{◌≡◌, IfOk, OnOk, map};
ghost use Rattle.std.specs.String.{string_bytes};
ghost use Rattle.serde_json.specs.Data.{string};
ghost use Rattle.serde_json.specs.View.{items_of, items_view, view};
ghost use Rattle.gm_json.specs.Audits.{IsAddedTo, audit_data, audit_json, difference_data, differing, equal_to, scrub_data, scrub_json, uncompared};

use crate::text::text_of;
use gm_looks::Flaw;
use gm_metadata::Label;
use gm_unlike::Unequal;
use serde_json::{Value, json};
use std::alloc::{AllocError, Global};

// A component that has other data than its mirror.
#[derive(Clone, Copy, Debug)]
pub(crate) struct Difference {
    pub(crate) provider: Label,
    // In how many sectors.
    pub(crate) sectors: u64,
    // The first of these.
    pub(crate) first: u64,
    // Its mirror's source.
    pub(crate) source: Label,
    // The first component that holds equal data.
    pub(crate) like: Label,
}

// Components whose data aren't their mirror's, by what is amiss of them.
#[derive(Drop)]
pub(crate) struct Apart {
    pub(crate) differ: Vec<Difference>,
    pub(crate) uncompared: Vec<Label>,
}

impl Apart {
    fn add(&mut self, found: &Unequal) -> Result<(), AllocError>
        ensures { OnOk result (IsAddedTo found.now self.old self.new) }
    {
        let provider = found.provider;
        match found.flaw {
            Flaw::Uncompared => self.uncompared.push(provider)?,
            Flaw::Differs { sectors, first } => {
                self.differ.push(Difference {
                    provider,
                    sectors,
                    first,
                    source: found.source,
                    like: found.like,
                })?
            }
        }
        Ok(())
    }
}

// Those whose data differ, and those that weren't compared, each in this order.
fn parted(alloc: Global, flaws: &[Unequal]) -> Result<Apart, AllocError>
    ensures differ { IfOk result (λ it. it.differ.items ≡ differing flaws.now) }
    ensures uncompared { IfOk result (λ it. it.uncompared.items ≡ uncompared flaws.now) }
{
    let mut parted = Apart {
        differ: Vec::new(alloc),
        uncompared: Vec::new(alloc),
    };
    for found in flaws {
        parted.add(found)?;
    }
    Ok(parted)
}

fn name_values(alloc: Global, names: &[Label]) -> Result<Vec<Value>, AllocError>
    ensures { IfOk result (λ vs. items_view vs.items ≡ items_of (map string names.now)) }
{
    let mut values = Vec::new(alloc);
    for name in names {
        values.push(Value::try_from_str(alloc, name.as_str())?)?;
    }
    Ok(values)
}

fn audit_value(alloc: Global, names: &[Label]) -> Result<Value, AllocError>
    ensures { IfOk result (λ v. view v ≡ audit_data names.now) }
{
    let names = name_values(alloc, names)?;
    json!(in alloc; {"amiss": names})
}

/// The names of components that aren't as they are registered, in this order.
pub fn audit_json(alloc: Global, names: &[Label]) -> Result<String, AllocError>
    ensures { IfOk result (λ text. string_bytes text ≡ audit_json names.now) }
{
    let value = audit_value(alloc, names)?;
    text_of(alloc, &value)
}

// The others that hold the data of one.
fn equal_to(alloc: Global, differ: &[Difference], one: Difference) -> Result<Vec<Label>, AllocError>
    ensures { IfOk result (λ names. names.items ≡ equal_to differ.now one) }
{
    differ
        .iter()
        .filter(|d| d.like == one.like && d.provider != one.provider)
        .map(|d| d.provider)
        .collect(alloc)
}

fn difference_value(
    alloc: Global,
    differ: &[Difference],
    one: Difference,
) -> Result<Value, AllocError>
    ensures { IfOk result (λ v. view v ≡ difference_data differ.now one) }
{
    let equal_to = name_values(alloc, &equal_to(alloc, differ, one)?)?;
    let name = one.provider.as_str();
    let source = one.source.as_str();
    json!(in alloc; {
        "equal_to": equal_to,
        "first": one.first,
        "name": name,
        "sectors": one.sectors,
        "source": source,
    })
}

fn difference_values(alloc: Global, differ: &[Difference]) -> Result<Vec<Value>, AllocError>
    ensures { IfOk result (λ vs. items_view vs.items
        ≡ items_of (map (difference_data differ.now) differ.now)) }
{
    let mut values = Vec::new(alloc);
    for difference in differ {
        values.push(difference_value(alloc, differ, *difference)?)?;
    }
    Ok(values)
}

// Those whose data differ.
pub(crate) fn differing_values(alloc: Global, flaws: &[Unequal]) -> Result<Vec<Value>, AllocError>
    ensures { IfOk result (λ vs. items_view vs.items
        ≡ items_of (map (difference_data (differing flaws.now)) (differing flaws.now))) }
{
    difference_values(alloc, &parted(alloc, flaws)?.differ)
}

// The names of those that weren't compared.
pub(crate) fn uncompared_values(alloc: Global, flaws: &[Unequal]) -> Result<Vec<Value>, AllocError>
    ensures { IfOk result (λ vs. items_view vs.items
        ≡ items_of (map string (uncompared flaws.now))) }
{
    name_values(alloc, &parted(alloc, flaws)?.uncompared)
}

fn scrub_value(alloc: Global, flaws: &[Unequal]) -> Result<Value, AllocError>
    ensures { IfOk result (λ v. view v ≡ scrub_data flaws.now) }
{
    let differ = differing_values(alloc, flaws)?;
    let uncompared = uncompared_values(alloc, flaws)?;
    json!(in alloc; {"differ": differ, "uncompared": uncompared})
}

/// The components that have other data than their mirrors, and those that weren't compared, in
/// this order.
pub fn scrub_json(alloc: Global, flaws: &[Unequal]) -> Result<String, AllocError>
    ensures { IfOk result (λ text. string_bytes text ≡ scrub_json flaws.now) }
{
    let value = scrub_value(alloc, flaws)?;
    text_of(alloc, &value)
}

//! What the lines of texts are made of.

ghost use Rattle.std.specs.Prelude.{◌≡◌, ◌++◌, IfOk, OnOk};
ghost use Rattle.std.specs.String.{string_bytes};
ghost use Rattle.gm_words.specs.Lines.{disk_flag_names, field, joined, left_in_15, mirror_flag_names, name_where, number, texts};

use gm_metadata::{DiskFlags, Label, MirrorFlags};
use std::alloc::{AllocError, Global};

/// Appends a name left in 15 places.
pub(crate) fn push_left_in_15(text: &mut String, name: Label) -> Result<(), AllocError>
    ensures { OnOk result (string_bytes text.new ≡ string_bytes text.old ++ left_in_15 name) }
{
    text.push_str(name.as_str())?;
    for _ in name.as_str().len()..15 {
        text.push(' ')?;
    }
    Ok(())
}

/// Appends the line of a name and what it stands for.
pub(crate) fn push_field(text: &mut String, name: &str, value: &str) -> Result<(), AllocError>
    ensures { OnOk result (string_bytes text.new
        ≡ string_bytes text.old ++ field name.now value.now) }
{
    writeln!(text, "{name}: {value}")
}

/// Appends the line of a name and a number.
pub(crate) fn push_number(text: &mut String, name: &str, value: u64) -> Result<(), AllocError>
    ensures { OnOk result (string_bytes text.new
        ≡ string_bytes text.old ++ number name.now value) }
{
    writeln!(text, "{name}: {value}")
}

// Adds a name if it holds.
fn push_name_where(
    names: &mut Vec<&'static str>,
    holds: bool,
    name: &'static str,
) -> Result<(), AllocError>
    ensures { OnOk result
        (texts names.new.items ≡ texts names.old.items ++ name_where holds name.now) }
{
    if holds {
        names.push(name)?;
    }
    Ok(())
}

// The names joined by commas, or NONE.
fn joined(alloc: Global, names: &[&'static str]) -> Result<String, AllocError>
    ensures { IfOk result (λ text. string_bytes text ≡ joined (texts names.now)) }
{
    if names.is_empty() {
        return String::from_str(alloc, "NONE");
    }
    names.join(alloc, ",")
}

/// The names of a mirror's flags that are set, joined by commas, or NONE.
pub(crate) fn mirror_flags_text(alloc: Global, flags: MirrorFlags) -> Result<String, AllocError>
    ensures { IfOk result (λ text. string_bytes text ≡ joined (mirror_flag_names flags)) }
{
    let mut names = Vec::new(alloc);
    push_name_where(&mut names, flags.no_autosync, "NOAUTOSYNC")?;
    push_name_where(&mut names, flags.no_failsync, "NOFAILSYNC")?;
    joined(alloc, &names)
}

/// The names of a component's flags that are set, joined by commas, or NONE.
pub(crate) fn disk_flags_text(alloc: Global, flags: DiskFlags) -> Result<String, AllocError>
    ensures { IfOk result (λ text. string_bytes text ≡ joined (disk_flag_names flags)) }
{
    let mut names = Vec::new(alloc);
    push_name_where(&mut names, flags.dirty, "DIRTY")?;
    push_name_where(&mut names, flags.synchronizing, "SYNCHRONIZING")?;
    push_name_where(&mut names, flags.force_sync, "FORCE_SYNC")?;
    push_name_where(&mut names, flags.inactive, "INACTIVE")?;
    joined(alloc, &names)
}

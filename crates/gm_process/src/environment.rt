//! What the environment says in the place of options that are left out.

use gm_command_line::{EXISTING, EXPLAIN, REGISTRY, SHELF, Setting, Settings};
use std::alloc::AllocError;
use std::env::{self, VarError};

// A variable, as it was found. One that is empty counts as unset.
#[derive(Drop)]
enum Variable {
    Unset,
    Text(String),
    NotUtf8,
}

impl Variable {
    fn find(rt: &HostRuntime, name: &str) -> Result<Variable, AllocError> {
        match env::var(rt, name) {
            Ok(text) if text.is_empty() => Ok(Variable::Unset),
            Ok(text) => Ok(Variable::Text(text)),
            Err(VarError::NotPresent) => Ok(Variable::Unset),
            Err(VarError::NotUnicode) => Ok(Variable::NotUtf8),
            Err(VarError::OutOfMemory) => Err(AllocError),
        }
    }

    fn setting(&self) -> Setting<'_> {
        match self {
            Variable::Unset => Setting::Unset,
            Variable::Text(text) => Setting::Text(text.as_str()),
            Variable::NotUtf8 => Setting::NotUtf8,
        }
    }
}

/// The variables that stand for options.
#[derive(Drop)]
pub struct Environment {
    registry: Variable,
    shelf: Variable,
    existing: Variable,
    explain: Variable,
}

impl Environment {
    /// Finds them. One that is empty counts as unset.
    pub fn find(rt: &HostRuntime) -> Result<Environment, AllocError> {
        Ok(Environment {
            registry: Variable::find(rt, REGISTRY)?,
            shelf: Variable::find(rt, SHELF)?,
            existing: Variable::find(rt, EXISTING)?,
            explain: Variable::find(rt, EXPLAIN)?,
        })
    }

    /// What they say of options that are left out.
    pub fn settings(&self) -> Settings<'_> {
        Settings {
            registry: self.registry.setting(),
            shelf: self.shelf.setting(),
            existing: self.existing.setting(),
            explain: self.explain.setting(),
        }
    }
}

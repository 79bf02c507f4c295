//! What stands for options that are left out.

/// The variable of the environment that stands for `--registry`.
pub const REGISTRY: &str = "GMBENCH_REGISTRY";

/// The variable of the environment that stands for `--shelf`.
pub const SHELF: &str = "GMBENCH_SHELF";

/// The variable of the environment that stands for `--existing`, if it is on.
pub const EXISTING: &str = "GMBENCH_EXISTING";

/// The variable of the environment that stands for `--explain`, if it is on.
pub const EXPLAIN: &str = "GMBENCH_EXPLAIN";

/// What a variable of the environment says.
#[derive(Clone, Copy)]
pub enum Setting<'a> {
    /// It isn't there, or is empty.
    Unset,
    Text(&'a str),
    /// Its bytes aren't UTF-8.
    NotUtf8,
}

impl Setting<'_> {
    pub(crate) fn is_unset(self) -> bool {
        matches!(self, Setting::Unset)
    }

    /// Whether it turns something on: it is there, isn't empty, and isn't `0`.
    pub fn is_on(self) -> bool {
        !matches!(self, Setting::Unset | Setting::Text("0"))
    }
}

/// What stands for each of the options if it is left out.
#[derive(Clone, Copy)]
pub struct Settings<'a> {
    pub registry: Setting<'a>,
    pub shelf: Setting<'a>,
    pub existing: Setting<'a>,
    pub explain: Setting<'a>,
}

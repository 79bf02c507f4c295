//! How a mirror would spread its reads: kept and shown, and without effect on what the bench does.

ghost use Rattle.std.specs.Prelude.{◌≡◌, ◌<◌, Option};
ghost use Rattle.gm_metadata.specs.Balance.{balance_code, balance_of, balance_name};

/// The balance of a mirror, by the codes of `g_mirror.h`.
#[derive(Clone, Copy, Debug, PartialEq, Eq)]
pub enum Balance {
    None,
    RoundRobin,
    Load,
    Split,
    Prefer,
}

impl Balance {
    /// The code in the sector: 0 to 4 in the order of the variants.
    pub fn code(self) -> u8
        ensures { result ≡ balance_code self }
    {
        match self {
            Balance::None => 0,
            Balance::RoundRobin => 1,
            Balance::Load => 2,
            Balance::Split => 3,
            Balance::Prefer => 4,
        }
    }

    /// The balance with this code; `None` for a code over 4.
    pub fn from_code(code: u8) -> Option<Balance>
        ensures { result ≡ balance_of code }
    {
        match code {
            0 => Some(Balance::None),
            1 => Some(Balance::RoundRobin),
            2 => Some(Balance::Load),
            3 => Some(Balance::Split),
            4 => Some(Balance::Prefer),
            _ => None,
        }
    }

    /// The name that gmirror(8) gives it; `none` for the code 0.
    pub fn name(self) -> &'static str
        ensures { result.now ≡ balance_name self }
    {
        match self {
            Balance::None => "none",
            Balance::RoundRobin => "round-robin",
            Balance::Load => "load",
            Balance::Split => "split",
            Balance::Prefer => "prefer",
        }
    }
}

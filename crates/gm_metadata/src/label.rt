//! Names of mirrors and providers.

ghost use Rattle.std.specs.Prelude.{◌≡◌, ◌==◌, ◌≤◌, ◌↔◌, ℕ, IsTrue, List, [], ◌∷◌, ◌++◌, length, drop, Some, None, nat_eq, if◌then◌else◌};
ghost use Rattle.std.specs.List.{list_all};
ghost use Rattle.std.specs.Ordering.{nat_cmp};
ghost use Rattle.std.specs.Str.{bytes_eq};
ghost use Rattle.std.specs.Cmp.Lexicographic.{slice_cmp};
ghost use Rattle.std.specs.Cmp.Rules.{comparing};
ghost use Rattle.std.proofs.Common.{refl, rules};
ghost use Rattle.gm_metadata.specs.Labels.{is_label, is_label_byte, is_label_field, padded, name_in, name_len};

use std::cmp::Ordering;
use std::convert::AsStr;
use std::fmt;
use std::marker::Model;

/// A name of 1 to 15 characters of A-Z, a-z, 0-9, `.`, `_` and `-`. In contracts a label is its
/// text.
#[derive(Clone, Copy, Debug)]
pub struct Label {
    field: [u8; 16],
}

impl Model for Label {
    ghost use Rattle.std.specs.Prelude.{ℕ, List};
    ghost use Rattle.gm_metadata.specs.Labels.{name_in, IsLabelField, padded};

    ghost Value = { List ℕ };

    ghost view = { λ a. name_in a.field };

    ghost invariant = { λ a. IsLabelField a.field };

    ghost inverse = { λ name. record { field = padded name } };

    ghost use Rattle.std.proofs.Common.{ap};

    ghost inverse_ok = { λ a h. ap (λ (x : List ℕ). record { field = x }) h.padding };
}

/// Whether the byte is a character of labels: one of A-Z, a-z, 0-9, `.`, `_` and `-`.
pub fn is_label_byte(byte: u8) -> bool
    ensures { result ≡ is_label_byte byte }
{
    byte.is_ascii_alphanumeric() || byte == b'.' || byte == b'_' || byte == b'-'
}

fn name_len(field: &[u8; 16]) -> usize
    ensures value { result ≡ name_len field.now }
    ensures within { result ≤ 16 }
{
    field.iter().take_while(|b| **b != 0).count()
}

fn all_label_bytes(text: &[u8]) -> bool
    ensures { result ≡ list_all is_label_byte text.now }
{
    text.iter().all(|b| is_label_byte(*b))
}

pub(crate) fn all_zero(bytes: &[u8]) -> bool
    ensures { result ≡ list_all (λ b. b == 0) bytes.now }
{
    bytes.iter().all(|b| *b == 0)
}

fn is_label_text(text: &[u8]) -> bool
    ensures { result ≡ is_label text.now }
{
    0 < text.len() && text.len() < 16 && all_label_bytes(text)
}

#[tactic(auto, unfolding(crate::specs::Labels::is_label_field))]
fn is_label_field(field: &[u8; 16]) -> bool
    ensures { result ≡ is_label_field field.now }
{
    let len = name_len(field);
    is_label_text(&field[..len]) && all_zero(&field[len..])
}

impl Label {
    /// The label of this text; `None` if the text isn't one.
    pub fn new(text: &str) -> Option<Label>
        ensures { result ≡ (if is_label text.now then Some text.now else None) }
    {
        let text = text.as_bytes();
        if !is_label_text(text) {
            return None;
        }
        let mut field = [0u8; 16];
        field[..text.len()].copy_from_slice(text);
        Some(Label { field })
    }

    /// The label in a field of a sector; `None` if the field isn't a label and zeros.
    pub fn from_field(field: &[u8; 16]) -> Option<Label>
        ensures { result ≡ (if is_label_field field.now then Some (name_in field.now) else None) }
    {
        if !is_label_field(field) {
            return None;
        }
        Some(Label { field: *field })
    }

    /// The field of a sector that the label fills: its text, and zeros up to 16 bytes.
    pub fn to_field(&self) -> [u8; 16]
        ensures value { result ≡ padded self.now }
        ensures label { IsTrue (is_label self.now) }
    {
        self.field
    }

    /// Its text, as bytes of ASCII.
    pub fn as_bytes(&self) -> &[u8]
        ensures text { result.now ≡ self.now }
        ensures label { IsTrue (is_label self.now) }
    {
        let len = name_len(&self.field);
        &self.field[..len]
    }

    /// Its text.
    pub fn as_str(&self) -> &str
        ensures text { result.now ≡ self.now }
        ensures label { IsTrue (is_label self.now) }
    {
        let text = str::from_utf8(self.as_bytes());
        text.unwrap()
    }
}

impl fmt::Display for Label {
    ghost output = { λ text. Some text };

    fn fmt<W: fmt::Write>(&self, f: &mut fmt::Formatter<W>) -> fmt::Result {
        let text = self.as_str();
        write!(f, "{text}")
    }
}

impl AsStr for Label {
    ghost text = { λ text. text };

    fn as_str(&self) -> &str {
        Label::as_str(self)
    }
}

impl PartialEq for Label {
    ghost eq = { λ a b. bytes_eq a b };

    ghost laws = { Prim.search (comparing, rules) };

    fn eq(&self, other: &Label) -> bool {
        self.as_bytes() == other.as_bytes()
    }
}

impl Eq for Label {
    ghost laws = { Prim.search (comparing, rules) };
}

impl PartialOrd for Label {
    ghost partial_cmp = { λ a b. Some (slice_cmp nat_cmp a b) };

    ghost laws = { Prim.search (comparing, rules) };

    fn partial_cmp(&self, other: &Label) -> Option<Ordering> {
        Some(self.cmp(other))
    }
}

/// Byte order of the texts.
impl Ord for Label {
    ghost cmp = { λ a b. slice_cmp nat_cmp a b };

    ghost total = { Prim.search (comparing, rules) };

    ghost matches_partial_cmp = { λ a b. refl };

    ghost matches_eq = { Prim.search (comparing, rules) };

    fn cmp(&self, other: &Label) -> Ordering {
        self.as_bytes().cmp(other.as_bytes())
    }
}

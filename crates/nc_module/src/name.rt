//! Names of letters.

ghost use Rattle.nc_algebra.specs.Alphabets.{is_name, is_name_byte};
ghost use Rattle.std.specs.List.{list_all};
ghost use Rattle.std.specs.Prelude.{IsTrue, None, Some, if◌then◌else◌, ◌≡◌, ◌↔◌};

use std::marker::Model;

/// A letter's name: an ASCII letter, and then letters, digits and underscores, at most 16 bytes in all.
#[derive(Drop)]
pub struct Name {
    kept: [u8; 16],
    len: usize,
}

impl Model for Name {
    ghost use Rattle.nc_algebra.specs.Alphabets.{is_name};
    ghost use Rattle.std.specs.Prelude.{IsTrue, List, take, ℕ, ◌≤◌};

    ghost Value = { List ℕ };

    ghost view = { λ n. take n.len n.kept };

    ghost invariant = { λ n. (n.len ≤ 16) × IsTrue (is_name (take n.len n.kept)) };
}

/// Whether a byte may stand in a name behind its first one.
fn is_name_byte(byte: u8) -> bool
    ensures { result ≡ is_name_byte byte }
{
    byte.is_ascii_alphanumeric() || byte == b'_'
}

fn all_name_bytes(bytes: &[u8]) -> bool
    ensures { result ≡ list_all is_name_byte bytes.now }
{
    bytes.iter().all(|b| is_name_byte(*b))
}

/// Whether bytes are a name.
pub fn is_name(bytes: &[u8]) -> bool
    ensures { result ≡ is_name bytes.now }
{
    let Some(first) = bytes.first() else {
        return false;
    };
    bytes.len() <= 16 && first.is_ascii_alphabetic() && all_name_bytes(bytes)
}

impl Name {
    /// The name that the bytes are, if they are one.
    pub fn of(bytes: &[u8]) -> Option<Name>
        ensures { result ≡ (if is_name bytes.now then Some bytes.now else None) }
    {
        if !is_name(bytes) {
            return None;
        }
        let mut kept = [0; 16];
        kept[..bytes.len()].copy_from_slice(bytes);
        Some(Name {
            kept,
            len: bytes.len(),
        })
    }

    /// Whether it is the other name.
    pub fn same(&self, other: &Name) -> bool
        ensures { IsTrue result ↔ (self.now ≡ other.now) }
    {
        self.bytes() == other.bytes()
    }

    /// The bytes of the name.
    pub fn bytes(&self) -> &[u8]
        ensures bytes { result.now ≡ self.now }
        ensures name { IsTrue (is_name self.now) }
    {
        &self.kept[..self.len]
    }
}

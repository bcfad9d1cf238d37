//! The names of standing queries.
ghost use Rattle.std.specs.Prelude.{◌≡◌, ◌↔◌, IsSome, IfSome, IsTrue};
ghost use Rattle.lv_bodies.specs.Names.{IsName, is_name, is_name_byte};

use std::marker::Model;

/// The name of a standing query: 1 to 16 bytes of `a-z`, `0-9` and `_`.
#[derive(Clone, Copy, Hash)]
pub struct Name {
    // The bytes of the name, and zeros after them.
    bytes: [u8; 16],
}

impl Model for Name {
    ghost use Rattle.std.specs.Prelude.{◌≡◌, List, ℕ};
    ghost use Rattle.std.proofs.Common.{sym};
    ghost use Rattle.lv_bodies.specs.Names.{IsName, kept_name, padded};

    ghost Value = { List ℕ };

    ghost view = { λ a. kept_name a.bytes };

    ghost invariant = { λ a. IsName (kept_name a.bytes) × (a.bytes ≡ padded (kept_name a.bytes)) };

    ghost inverse = { λ name. record { bytes = padded name } };

    ghost inverse_ok = { λ a h i. record { bytes = sym h.1 i } };
}

impl Name {
    /// The name of these bytes, if they may be one.
    pub fn new(bytes: &[u8]) -> Option<Name>
        ensures named { IsSome result ↔ IsName bytes.now }
        ensures bytes { IfSome result (λ name. name ≡ bytes.now) }
    {
        if !is_name(bytes) {
            return None;
        }
        let mut padded = [0; 16];
        padded[..bytes.len()].copy_from_slice(bytes);
        Some(Name { bytes: padded })
    }

    /// The bytes of the name.
    pub fn as_bytes(&self) -> &[u8]
        ensures bytes { result.now ≡ self.now }
        ensures named { IsName self.now }
    {
        let len = self.bytes.iter().position(|b| *b == 0).unwrap_or(16);
        &self.bytes[..len]
    }
}

impl PartialEq for Name {
    ghost use Rattle.std.specs.Str.{bytes_eq};
    ghost use Rattle.std.specs.Cmp.{partial_equiv_from_equiv};
    ghost use Rattle.std.specs.Cmp.Lexicographic.{nat_list_eq_equiv};

    ghost eq = { bytes_eq };

    ghost laws = { partial_equiv_from_equiv nat_list_eq_equiv };

    fn eq(&self, other: &Name) -> bool {
        self.bytes == other.bytes
    }
}

impl Eq for Name {
    ghost use Rattle.std.specs.Cmp.Lexicographic.{nat_list_eq_equiv};

    ghost laws = { nat_list_eq_equiv };
}

fn is_name(bytes: &[u8]) -> bool
    ensures { result ≡ is_name bytes.now }
{
    !bytes.is_empty() && bytes.len() <= 16 && bytes.iter().all(|b| is_name_byte(*b))
}

fn is_name_byte(b: u8) -> bool
    ensures { result ≡ is_name_byte b }
{
    b.is_ascii_lowercase() || b.is_ascii_digit() || b == b'_'
}

//! The names of liars.
ghost use Rattle.std.specs.Prelude.{◌≡◌, ◌↔◌, IsSome, IfSome};
ghost use Rattle.hb_base.specs.LiarName.{is_name_byte, IsName};

use std::marker::Model;

/// The name under which a scenario asks for a liar. Clauses see it as the list of its bytes.
#[derive(Clone, Copy, Debug, PartialEq, Eq)]
pub struct LiarName {
    bytes: [u8; 16],
    len: u8,
}

impl Model for LiarName {
    ghost use Rattle.std.specs.Prelude.{ℕ, List, length, take};
    ghost use Rattle.std.proofs.Common.{arith, length-take-le};
    ghost use Rattle.hb_base.specs.LiarName.{IsPadded, padded, padded-take};

    ghost Value = { List ℕ };

    ghost view = { λ name. take name.len name.bytes };

    ghost invariant = { λ name. IsPadded name.len name.bytes };

    ghost inverse = { λ text. record { bytes = padded text; len = length text } };

    ghost inverse_ok = { λ name is_padded i. record {
      bytes = padded-take name.len name.bytes is_padded i;
      len = length-take-le name.len name.bytes (omega (arith, is_padded.short, is_padded.whole)) i;
    } };
}

impl LiarName {
    /// The name that this text spells: None exactly where it isn't 1 to 16 bytes, each an ASCII lower-case letter,
    /// a digit or `_`.
    pub fn of(text: &str) -> Option<LiarName>
        ensures found { IsSome result ↔ IsName text.now }
        ensures value { IfSome result (λ name. name ≡ text.now) }
    {
        let text = text.as_bytes();
        if text.is_empty() || text.len() > 16 || !text.iter().all(|byte| is_name_byte(*byte)) {
            return None;
        }
        let mut bytes = [0; 16];
        bytes[..text.len()].copy_from_slice(text);
        Some(LiarName {
            bytes,
            len: text.len() as u8,
        })
    }

    /// The bytes of the name.
    pub fn as_bytes(&self) -> &[u8]
        ensures { result.now ≡ self.now }
    {
        &self.bytes[..self.len as usize]
    }
}

fn is_name_byte(byte: u8) -> bool
    ensures { result ≡ is_name_byte byte }
{
    matches!(byte, b'a'..=b'z' | b'0'..=b'9' | b'_')
}

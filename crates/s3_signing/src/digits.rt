//! Hashes in hexadecimal digits.

ghost use Rattle.std.specs.Prelude.{◌≡◌};
ghost use Rattle.hex.specs.Hex.{encode_lower};

use std::marker::Model;

/// A hash of 32 bytes in 64 lower-case hexadecimal digits, in place. Contracts see the digits.
#[derive(Clone, Copy)]
pub struct HexHash {
    digits: [u8; 64],
}

impl Model for HexHash {
    ghost use Rattle.std.specs.Prelude.{List, ℕ, IsUtf8};

    ghost Value = { List ℕ };

    ghost view = { λ h. h.digits };

    ghost invariant = { λ h. IsUtf8 h.digits };

    ghost inverse = { λ digits. record { digits = digits } };
}

impl HexHash {
    /// The digits of a hash.
    pub fn of(hash: [u8; 32]) -> HexHash
        ensures { result ≡ encode_lower hash }
    {
        let mut digits = [0; 64];
        match hex::encode_to_slice(hash, &mut digits) {
            Ok(()) => HexHash { digits },
            Err(_) => unreachable!(),
        }
    }

    pub fn as_str(&self) -> &str
        ensures { result.now ≡ self.now }
    {
        unsafe { str::from_utf8_unchecked(&self.digits) }
    }
}

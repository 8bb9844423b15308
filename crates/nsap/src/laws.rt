//! What holds of addresses and of their texts, for all lists of octets.

ghost use Rattle.std.specs.Prelude.{◌≡◌, ◌<◌, ◌≤◌, ◌↔◌, ◌++◌, ℕ, List, length, true, Ok};
ghost use Rattle.hex.specs.Hex.{IsBytes, encode_lower};
ghost use Rattle.nsap.specs.Address.{covers};
ghost use Rattle.nsap.specs.Text.{address_of_text, prefix_of_text, snpa_of_text};

/// What an address, an SNPA or a prefix that is not empty prints is read as the same octets.
pub fn text_round_trip()
    ensures address { (octets : List ℕ) → IsBytes octets → 0 < length octets → length octets ≤ 20
        → address_of_text (encode_lower octets) ≡ Ok octets }
    ensures snpa { (octets : List ℕ) → IsBytes octets → length octets ≡ 6
        → snpa_of_text (encode_lower octets) ≡ Ok octets }
    ensures prefix { (octets : List ℕ) → IsBytes octets → 0 < length octets → length octets ≤ 20
        → prefix_of_text (encode_lower octets) ≡ Ok octets }
{}

/// A prefix covers exactly the addresses that begin with its octets.
pub fn is_prefix()
    ensures { (prefix address : List ℕ) → (covers prefix address ≡ true) ↔ ((rest : List ℕ) × (address ≡ prefix ++ rest)) }
{}

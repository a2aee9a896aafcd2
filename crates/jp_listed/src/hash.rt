//! The hash of a text.

ghost use Rattle.std.specs.Prelude.{◌≡◌};
ghost use Rattle.jp_listed.specs.Hashes.{hash_of};

/// An odd number near 2^64 divided by the golden ratio: its products differ in their first bits.
const FACTOR: u64 = 0x9E37_79B9_7F4A_7C15;

/// The hash of a text: a number whose first bits decide where the text is looked for. Texts that have one hash by chance, or
/// by design, are told apart by their bytes.
pub(crate) fn hash(text: &[u8]) -> u64
    ensures { result ≡ hash_of text.now }
{
    let mut hash: u64 = 0;
    for byte in text {
        hash = hash.wrapping_add(u64::from(*byte)).wrapping_mul(FACTOR);
    }
    hash
}

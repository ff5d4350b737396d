//! Hashes from a seed on: who does not know it cannot choose values that have the same hash. They are those of the
//! kit's `FoldHasher`, but that a key from the seed is in the place of its constant. No answer depends on a hash.
ghost use Rattle.std.specs.Prelude.{◌≡◌, ◌+◌, ◌≤◌, length};
ghost use Rattle.std.specs.Hash.FoldHasher as folding;

use std::hash::{BuildHasher, Hasher};

/// What hashes begin from.
#[derive(Clone, Copy, Debug, PartialEq, Eq)]
pub struct Seed(pub u64);

impl Seed {
    /// The seed that everybody knows, for values that no stranger chooses.
    pub fn known() -> Seed {
        Seed(0)
    }
}

const STATE: u64 = 0x243f_6a88_85a3_08d3;

const KEY: u64 = 0x9e37_79b9_7f4a_7c15;

/// What was hashed so far, and the key.
#[derive(Clone, Copy, Debug)]
pub struct SeededHasher {
    pub state: u64,
    pub key: u64,
}

impl BuildHasher for Seed {
    ghost use Rattle.enf_data.specs.machine.SeededHashes.{seeded_hasher};

    type Hasher = SeededHasher;

    ghost build_hasher = { seeded_hasher };

    fn build_hasher(&self) -> SeededHasher {
        SeededHasher {
            state: STATE ^ self.0,
            key: KEY ^ self.0.rotate_left(32),
        }
    }
}

impl Hasher for SeededHasher {
    ghost use Rattle.enf_data.specs.machine.SeededHashes.{seeded_write};

    ghost write = { seeded_write };

    ghost finish = { λ h. h.state };

    fn finish(&self) -> u64 {
        self.state
    }

    fn write(&mut self, bytes: &[u8]) {
        let len = bytes.len();
        if len <= 8 {
            let word = self.state ^ read_short(bytes);
            self.state = folded_multiply(word, self.key ^ (2 * len as u64));
            return;
        }
        let mut state = self.state.wrapping_add(len as u64);
        let mut at = 0;
        while len - at > 16 {
            state = folded_multiply(
                read_u64(bytes, at) ^ state,
                read_u64(bytes, at + 8) ^ self.key,
            );
            at += 16;
        }
        self.state = folded_multiply(
            read_u64(bytes, len.saturating_sub(16)) ^ state,
            read_u64(bytes, len - 8) ^ self.key,
        );
    }
}

// The two halves of the product, joined.
fn folded_multiply(a: u64, b: u64) -> u64
    ensures { result ≡ folding.folded_multiply a b }
{
    let product = a as u128 * b as u128;
    (product & 0xFFFF_FFFF_FFFF_FFFF) as u64 ^ (product >> 64) as u64
}

// Four bytes as a number, the lowest first.
fn read_u32(bytes: &[u8], at: usize) -> u64
    requires { at + 4 ≤ length bytes.now }
    ensures { result ≡ folding.read_u32 bytes.now at }
{
    u32::from_le_bytes([bytes[at], bytes[at + 1], bytes[at + 2], bytes[at + 3]]) as u64
}

// Eight bytes as a number.
fn read_u64(bytes: &[u8], at: usize) -> u64
    requires { at + 8 ≤ length bytes.now }
    ensures { result ≡ folding.read_u64 bytes.now at }
{
    read_u32(bytes, at) | read_u32(bytes, at + 4) << 32
}

// Up to 8 bytes as a number, by reads that may overlap.
fn read_short(bytes: &[u8]) -> u64
    ensures { result ≡ folding.read_short bytes.now }
{
    let len = bytes.len();
    if len >= 4 {
        read_u32(bytes, 0) | read_u32(bytes, len - 4) << 32
    } else if len > 0 {
        bytes[0] as u64 | (bytes[len / 2] as u64) << 8 | (bytes[len - 1] as u64) << 16
    } else {
        0
    }
}

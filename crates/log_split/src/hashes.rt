//! The stream of an event: by a hash of its key's bytes, which each program can compute again.
ghost use Rattle.std.specs.Prelude.{◌≡◌, ◌<◌};
ghost use Rattle.log_split.specs.machine.Splitting.{own_stream};
ghost use Rattle.log_split.specs.meaning.Streams.{fnv_hash, stream_for_key};
ghost use Rattle.slices.specs.machine.StoredKeys.{keying_of};

use enf_data::{Event, Value};
use itoa::Buffer;
use slices::Keys;

// From where the hash begins, and by what it is multiplied at each byte: those of FNV-1a with 64 bits.
const FNV_START: u64 = 0xcbf2_9ce4_8422_2325;

const FNV_PRIME: u64 = 0x0000_0100_0000_01b3;

/// The hash of bytes.
pub fn hash_of(bytes: &[u8]) -> u64
    ensures { result ≡ fnv_hash bytes.now }
{
    let mut hash = FNV_START;
    for byte in bytes {
        hash = (hash ^ *byte as u64).wrapping_mul(FNV_PRIME);
    }
    hash
}

// The stream of a key: that of the bytes which a text stands for, or of a number's decimal text.
fn stream_for(key: &Value, streams: u32) -> u32
    requires { 0 < streams }
    ensures value { result ≡ stream_for_key streams key.now }
    ensures within { result < streams }
{
    let hash = match key {
        Value::Text(text) => hash_of(text.bytes()),
        Value::Num(number) => {
            let mut digits = Buffer::new();
            hash_of(digits.format(*number).as_bytes())
        }
    };
    (hash % streams as u64) as u32
}

/// The stream to which an event goes alone; none where it has no key, and goes to each.
pub fn stream_of(keys: &Keys, streams: u32, event: &Event) -> Option<u32>
    requires { 0 < streams }
    ensures { result ≡ own_stream (keying_of keys.now) streams event.now }
{
    let key = keys.key_of(event)?;
    Some(stream_for(key, streams))
}

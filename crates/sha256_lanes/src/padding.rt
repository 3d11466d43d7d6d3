// The blocks of a message with its padding (FIPS 180-4, 5.1.1).
ghost use Rattle.std.specs.Prelude.{◌≡◌, ℕ, ◌+◌, ◌*◌, ◌/◌, ◌^◌, ◌<◌, ◌≤◌, length, slice_index, take, drop};
ghost use Rattle.sha2.specs.Sha256.{padded_message};
ghost use Rattle.sha256_lanes.specs.inner.Hashed.{block_count};

/// Returns how many blocks a message of this length has with its padding.
pub(crate) fn block_count(message: &[u8]) -> usize
    ensures value { result ≡ block_count message.now }
    ensures number { result ≡ (length message.now + 8) / 64 + 1 }
{
    let len = message.len();
    if len % 64 < 56 {
        len / 64 + 1
    } else {
        len / 64 + 2
    }
}

// Returns a byte of a message with its padding.
fn padded_byte(message: &[u8], i: usize) -> u8
    requires small { length message.now < 2 ^ 60 }
    requires within { i < 64 * ((length message.now + 8) / 64 + 1) }
    ensures { result ≡ slice_index (padded_message message.now) i }
{
    let len = message.len();
    if i < len {
        return message[i];
    }
    if i == len {
        return 0x80;
    }
    let end = 64 * block_count(message) - 8;
    if i < end {
        return 0;
    }
    let bits = (len as u64 * 8).to_be_bytes();
    bits[i - end]
}

/// Puts block `n` of a message with its padding into `block`, if there is one.
pub(crate) fn put_block(message: &[u8], n: usize, block: &mut [u8; 64])
    requires { length message.now < 2 ^ 60 }
    ensures { n < block_count message.now → block.new ≡ take 64 (drop (n * 64) (padded_message message.now)) }
{
    if n < message.len() / 64 {
        let at = 64 * n;
        block.copy_from_slice(&message[at..at + 64]);
    } else if n < block_count(message) {
        put_last_block(message, n, block);
    }
}

// The same for a block that has padding.
fn put_last_block(message: &[u8], n: usize, block: &mut [u8; 64])
    requires small { length message.now < 2 ^ 60 }
    requires within { n < block_count message.now }
    ensures { block.new ≡ take 64 (drop (n * 64) (padded_message message.now)) }
{
    'bytes: for i in 0..64 {
        block[i] = padded_byte(message, 64 * n + i);
    }
}

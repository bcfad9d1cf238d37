//! Numbers as bytes, the lowest first, and their checksum.
ghost use Rattle.std.specs.Prelude.{◌≡◌, ◌+◌, ◌*◌, ◌<◌, ◌≤◌, ◌^◌, ◌++◌, ℕ, ℤ, List, All, length, FitsSigned};
ghost use Rattle.std.specs.Int.{w64, w128, to_le_bytes};
ghost use Rattle.lv_shards.specs.Bytes.{checksum_from, checksum_of, high_bits, low_bits, number_in, sealed_by, spelled};

/// How many bytes a summary has.
pub const SUMMARY_BYTES: usize = 184;

/// How many of them the numbers have, which are all but those of the checksum.
pub const NUMBER_BYTES: usize = 176;

/// How many numbers a summary has.
pub const NUMBERS: usize = 22;

/// The checksum of no bytes.
pub const CHECKSUM_OF_NONE: u64 = 14_695_981_039_346_656_037;

/// The numbers that a summary is written by.
pub type Numbers = [u64; NUMBERS];

/// The low and the high 64 bits of a number of 128 bits, in two's complement.
pub fn halves(x: i128) -> (u64, u64)
    ensures low { result.0 ≡ low_bits x }
    ensures high { result.1 ≡ high_bits x }
{
    let bits = x.cast_unsigned();
    ((bits % (1 << 64)) as u64, (bits / (1 << 64)) as u64)
}

/// The number that has these halves.
pub fn whole(low: u64, high: u64) -> i128
    ensures { (x : ℤ) → FitsSigned w128 x → low ≡ low_bits x → high ≡ high_bits x → result ≡ x }
{
    (u128::from(high) * (1 << 64) + u128::from(low)).cast_signed()
}

/// Numbers by their bytes.
pub fn spell(numbers: &Numbers) -> [u8; NUMBER_BYTES]
    ensures { result ≡ spelled numbers.now }
{
    let mut bytes = [0; NUMBER_BYTES];
    for (j, number) in numbers.iter().enumerate() {
        bytes[8 * j..8 * j + 8].copy_from_slice(&number.to_le_bytes());
    }
    bytes
}

/// The checksum of some bytes: FNV-1a of 64 bits. O(n).
pub fn checksum(bytes: &[u8]) -> u64
    ensures { result ≡ checksum_of bytes.now }
{
    checksum_more(CHECKSUM_OF_NONE, bytes)
}

/// The checksum of some bytes, and then of these, if `before` is that of the first ones. O(n).
pub fn checksum_more(before: u64, bytes: &[u8]) -> u64
    ensures { result ≡ checksum_from before bytes.now }
{
    let mut hash = before;
    for byte in bytes {
        hash = (hash ^ u64::from(*byte)).wrapping_mul(1_099_511_628_211);
    }
    hash
}

/// Bytes, and then those of their checksum.
pub fn seal(payload: &[u8; NUMBER_BYTES]) -> [u8; SUMMARY_BYTES]
    ensures { result ≡ sealed_by payload.now }
{
    let mut bytes = [0; SUMMARY_BYTES];
    bytes[..NUMBER_BYTES].copy_from_slice(payload);
    bytes[NUMBER_BYTES..].copy_from_slice(&checksum(payload).to_le_bytes());
    bytes
}

/// The number whose eight bytes are at a place among the numbers.
pub fn number_at(bytes: &[u8], j: usize) -> u64
    requires { 8 * j + 8 ≤ length bytes.now }
    ensures { result ≡ number_in bytes.now j }
{
    u64::from_le_bytes([
        bytes[8 * j],
        bytes[8 * j + 1],
        bytes[8 * j + 2],
        bytes[8 * j + 3],
        bytes[8 * j + 4],
        bytes[8 * j + 5],
        bytes[8 * j + 6],
        bytes[8 * j + 7],
    ])
}

/// The numbers whose bytes come first.
pub fn numbers_in(bytes: &[u8; SUMMARY_BYTES]) -> Numbers
    ensures { (numbers : List ℕ) → length numbers ≡ 22 → All (λ n. n < 2 ^ 64) numbers → bytes.now ≡ sealed_by (spelled numbers) → result ≡ numbers }
{
    let mut numbers = [0; NUMBERS];
    for j in 0..NUMBERS {
        numbers[j] = number_at(bytes, j);
    }
    numbers
}

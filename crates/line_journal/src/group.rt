//! A group of lines as it stands on the disk: a head with its length and sum, and then its bytes. None of them is a zero.
ghost use Rattle.std.specs.Prelude.{◌≡◌, ◌≢◌, ◌+◌, ◌*◌, ◌%◌, ◌<◌, ◌≤◌, ◌++◌, ℕ, IsTrue, false, ◌==◌, length, slice_index};
ghost use Rattle.std.specs.List.{count_by};
ghost use Rattle.sqlite_disk.specs.Digest.{digest};
ghost use Rattle.line_journal.specs.Groups.{sevens, IsGroup};

use memchr::memchr;
use sqlite_disk::digest_of;

/// How many bytes a group has at most, with the newlines of its lines: 64 KiB.
pub const MOST_GROUP: usize = 65_536;

/// How many bytes stand in front of a group.
pub const HEAD: usize = 13;

/// How many of them tell its length.
const LENGTH: usize = 3;

/// Writes the head of a group: three bytes of its length and ten of its sum, of seven bits each, the least first. None is a zero.
pub fn put_head(head: &mut [u8], group: &[u8])
    requires { length head.old ≡ HEAD }
    ensures { head.new ≡ sevens 3 (length group.now) ++ sevens 10 (digest 0 group.now) }
{
    put_sevens(&mut head[..LENGTH], group.len() as u64);
    put_sevens(&mut head[LENGTH..], digest_of(0, group));
}

/// Whether these bytes are the head of a group.
pub fn is_head(head: &[u8], group: &[u8]) -> bool
    ensures { IsTrue result → head.now ≡ sevens 3 (length group.now) ++ sevens 10 (digest 0 group.now) }
{
    let mut right = [0; HEAD];
    put_head(&mut right, group);
    right.as_slice() == head
}

/// Writes a number into these bytes, seven bits into each.
pub fn put_sevens(bytes: &mut [u8], number: u64)
    ensures { bytes.new ≡ sevens (length bytes.old) number }
{
    let mut left = number;
    for i in 0..bytes.len() {
        bytes[i] = 128 + (left % 128) as u8;
        left /= 128;
    }
}

/// The length that a head tells.
pub fn length_in(head: &[u8]) -> usize
    requires { LENGTH ≤ length head.now }
    ensures { result ≡ slice_index head.now 0 % 128 + slice_index head.now 1 % 128 * 128 + slice_index head.now 2 % 128 * 16384 }
{
    low(head[0]) + low(head[1]) * 128 + low(head[2]) * 16_384
}

fn low(byte: u8) -> usize
    ensures value { result ≡ byte % 128 }
    ensures small { result < 128 }
{
    (byte % 128) as usize
}

/// Whether these bytes are whole lines that a journal takes: some, and not too many, none of them a zero, the last one a newline.
pub fn is_group(bytes: &[u8]) -> bool
    ensures { IsTrue result → IsGroup bytes.now }
{
    bytes.len() <= MOST_GROUP && bytes.last() == Some(&b'\n') && !has_zero(bytes)
}

/// Whether one of them is a zero.
pub fn has_zero(bytes: &[u8]) -> bool
    ensures some { IsTrue result → (i : ℕ) × (i < length bytes.now) × (slice_index bytes.now i ≡ 0) }
    ensures none { result ≡ false → (i : ℕ) → i < length bytes.now → slice_index bytes.now i ≢ 0 }
{
    memchr(0, bytes).is_some()
}

/// How many lines these bytes have: their newlines.
pub fn lines_in(bytes: &[u8]) -> usize
    ensures { result ≡ count_by (λ byte. byte == 10) bytes.now }
{
    bytes.iter().filter(|byte| **byte == b'\n').count()
}

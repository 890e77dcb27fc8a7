// Bytes: payloads copied into the lent store, a header's words written as bytes, and stored numbers read from them. Document 01: "Only pushed
// payload bytes change"; headers are big-endian. Records are little-endian: `to_le_bytes` writes them (specs/Laws, `to_le-little`).
#![tactic(auto)]

ghost use Rattle.std.specs.Prelude.{◌≡◌, ◌+◌, ◌≤◌, ◌<◌, ◌^◌, ◌++◌, length};
ghost use Rattle.std.proofs.Math.Seq.{paste, slice};
ghost use Rattle.rules_numbers.specs.Bytes.{big, from_little};

// The first `n` bytes of `src` come to lie at `at`; every other byte of `dst` stays. Places and
// lengths, not sub-slices: the contracts above speak with `paste`, and what a copy has to do with it stands here once.
pub fn copy_in(dst: &mut [u8], at: usize, src: &[u8], n: usize)
    requires n_in_bounds { at + n ≤ length dst.old }
    requires n_in_bounds_2 { n ≤ length src.now }
    ensures { dst.new ≡ paste dst.old at src.now n }
{
    // By index: `copy_from_slice` of a length known only at run time calls C's `memmove`, and the archive needs nothing from outside.
    for i in 0..n {
        dst[at + i] = src[i];
    }
}

// Four words, each with its highest byte first.
pub fn big_words(a: u32, b: u32, c: u32, d: u32) -> [u8; 16]
    ensures { result ≡ big 4 a ++ big 4 b ++ big 4 c ++ big 4 d }
{
    let mut words = [0; 16];
    words[..4].copy_from_slice(&a.to_be_bytes());
    words[4..8].copy_from_slice(&b.to_be_bytes());
    words[8..12].copy_from_slice(&c.to_be_bytes());
    words[12..].copy_from_slice(&d.to_be_bytes());
    words
}

// The number of the `w` bytes that lie at `at`, the lowest first. Not over a sub-slice: its width would be a `requires` as well.
pub fn little_at(bytes: &[u8], at: usize, w: usize) -> u64
    requires w_bound { w ≤ 8 }
    requires w_in_bounds { at + w ≤ length bytes.now }
    ensures value { result ≡ from_little (slice at (at + w) bytes.now) }
    ensures upper_bound { result < 256 ^ w }
{
    let mut low = [0; 8];
    low[..w].copy_from_slice(&bytes[at..at + w]);
    u64::from_le_bytes(low)
}

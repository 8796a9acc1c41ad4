//! HMAC with SHA-256.
ghost use Rattle.std.specs.Prelude.{◌≡◌, ◌++◌};
ghost use Rattle.sha2.specs.Sha256.{sha256};
ghost use Rattle.s3_signing.specs.Hmac as spec;

use sha2::{Digest, Sha256};

const BLOCK: usize = 64;

/// The SHA-256 of two pieces taken as one message.
fn hash_of_two(first: &[u8], second: &[u8]) -> [u8; 32]
    ensures { result ≡ sha256 (first.now ++ second.now) }
{
    let mut hasher = Sha256::new();
    hasher.update(first);
    hasher.update(second);
    hasher.finalize()
}

/// The key at the length of a block.
fn block_key(key: &[u8]) -> [u8; 64]
    ensures { result ≡ spec.block_key key.now }
{
    let mut block = [0; BLOCK];
    if key.len() > BLOCK {
        let hashed = Sha256::digest(key);
        block[..32].copy_from_slice(&hashed);
    } else {
        block[..key.len()].copy_from_slice(key);
    }
    block
}

/// The block, each byte XOR the byte of the pad.
fn padded_by(pad: u8, block: &[u8; 64]) -> [u8; 64]
    ensures { result ≡ spec.padded_by pad block.now }
{
    let mut padded = [0; BLOCK];
    for i in 0..BLOCK {
        padded[i] = block[i] ^ pad;
    }
    padded
}

/// HMAC with SHA-256 (RFC 2104). A key longer than 64 bytes is hashed first.
#[tactic(auto, unfolding(crate::specs::Hmac::hmac_sha256, crate::specs::Hmac::inner_hash))]
pub fn hmac_sha256(key: &[u8], message: &[u8]) -> [u8; 32]
    ensures { result ≡ spec.hmac_sha256 key.now message.now }
{
    let block = block_key(key);
    let inner = hash_of_two(&padded_by(0x36, &block), message);
    hash_of_two(&padded_by(0x5C, &block), &inner)
}

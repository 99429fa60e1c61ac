// Operations on 64-bit words: the product's lower and upper half, and the rotation.
#![tactic(auto)]

ghost use Rattle.std.specs.Prelude.{◌≡◌, ◌*◌, ◌/◌, ◌^◌};
ghost use Rattle.words.specs.Product.{product};
ghost use Rattle.words.specs.Rotation.{rotl};

// a * b modulo 2^64, from halves of 32 bits: the product of the upper halves weighs 2^64, and the
// cross products count only by their lower halves.
pub fn wrapping_mul(a: u64, b: u64) -> u64
    ensures { result ≡ product a b }
{
    let a0 = a % 0x1_0000_0000;
    let a1 = a >> 32;
    let b0 = b % 0x1_0000_0000;
    let b1 = b >> 32;
    let low = a0 * b0;
    let cross = (a1 * b0).wrapping_add(a0 * b1);
    low.wrapping_add(cross << 32)
}

// The upper 64 bits of the product.
pub fn high(u: u64, v: u64) -> u64
    ensures { result ≡ u * v / 2 ^ 64 }
{
    ((u as u128 * v as u128) >> 64) as u64
}

// x rotated left by k modulo 64, so every distance is one.
pub fn rotate_left(x: u64, k: u32) -> u64
    ensures { result ≡ rotl x k }
{
    x.rotate_left(k)
}

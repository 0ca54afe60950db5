// The checksum of an image: s = (s * 257 + b + 1) mod 4294967291 over its bytes b, from first to last, from s = 0.
// Takes any bytes; no sum passes 64 bits.
ghost use Rattle.std.specs.Prelude.{◌≡◌, ◌<◌};
ghost use Rattle.outcome.specs.Sums.{modulus, sum_step, sum_of};

// One byte more.
fn step(s: u64, b: u8) -> u64
    requires { s < modulus }
    ensures { result ≡ sum_step s b }
{
    (s * 257 + b as u64 + 1) % 4294967291
}

// The checksum of all the bytes.
pub fn checksum(img: &[u8]) -> u64
    ensures { result ≡ sum_of img.now }
{
    let mut s: u64 = 0;
    for b in img {
        s = step(s, *b);
    }
    s
}

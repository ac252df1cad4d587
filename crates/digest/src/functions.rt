// The functions of FIPS 180-4, 4.1.2, on words of 32 bits.
ghost use Rattle.std.specs.Prelude.{◌≡◌, ◌<◌};
ghost use Rattle.digest.specs.Sha256.{rotated, Ch, Maj, Σ₀, Σ₁, σ₀, σ₁};

fn rotate(x: u32, n: u32) -> u32
    requires { (0 < n) × (n < 32) }
    ensures { result ≡ rotated n x }
{
    x.rotate_right(n)
}

pub fn choose(x: u32, y: u32, z: u32) -> u32
    ensures { result ≡ Ch x y z }
{
    (x & y) ^ (!x & z)
}

pub fn majority(x: u32, y: u32, z: u32) -> u32
    ensures { result ≡ Maj x y z }
{
    (x & y) ^ (x & z) ^ (y & z)
}

pub fn big_sigma_0(x: u32) -> u32
    ensures { result ≡ Σ₀ x }
{
    rotate(x, 2) ^ rotate(x, 13) ^ rotate(x, 22)
}

pub fn big_sigma_1(x: u32) -> u32
    ensures { result ≡ Σ₁ x }
{
    rotate(x, 6) ^ rotate(x, 11) ^ rotate(x, 25)
}

pub fn small_sigma_0(x: u32) -> u32
    ensures { result ≡ σ₀ x }
{
    rotate(x, 7) ^ rotate(x, 18) ^ (x >> 3)
}

pub fn small_sigma_1(x: u32) -> u32
    ensures { result ≡ σ₁ x }
{
    rotate(x, 17) ^ rotate(x, 19) ^ (x >> 10)
}

// Signed numbers as unsigned ones: small magnitudes stay small.
ghost use Rattle.std.specs.Prelude.{◌≡◌};
ghost use Rattle.varint.specs.Zigzag.{folded, unfolded};

// 2n, or -2n - 1 below 0.
pub fn fold(n: i32) -> u32
    ensures answer { result ≡ folded n }
    ensures back { unfolded result ≡ n }
{
    if n >= 0 {
        (n as u32) * 2
    } else {
        (-(n + 1)) as u32 * 2 + 1
    }
}

// The number that folds to z.
pub fn unfold(z: u32) -> i32
    ensures answer { result ≡ unfolded z }
    ensures back { folded result ≡ z }
{
    if z % 2 == 0 {
        (z / 2) as i32
    } else {
        -1 - (z / 2) as i32
    }
}

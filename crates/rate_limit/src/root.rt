//! The cube root of a whole number.
ghost use Rattle.std.specs.Prelude.{◌≡◌, ◌+◌, ◌*◌, ◌≤◌, ◌<◌, nat_le};
ghost use Rattle.rate_limit.specs.CubeRoot.{cube, cube_root, IsCubeRoot};

/// The least number whose cube doesn't fit 128 bits.
const ROOTS_END: u64 = 6_981_463_658_332;

/// How often the numbers below `ROOTS_END` can be halved.
const ROUNDS: u32 = 43;

/// The greatest number whose cube is at most this one. It takes 43 rounds, whatever the number is.
pub fn cube_root(n: u128) -> u64
    ensures root { IsCubeRoot n result }
    ensures value { result ≡ cube_root n }
    ensures bound { result < ROOTS_END }
{
    let mut root = 0;
    let mut width = ROOTS_END;
    for _round in 0..ROUNDS {
        let half = width / 2;
        if has_cube_within(root + half, n) {
            root += half;
            width -= half;
        } else {
            width = half;
        }
    }
    root
}

/// Whether this number's cube is at most `n`.
fn has_cube_within(root: u64, n: u128) -> bool
    requires { root < ROOTS_END }
    ensures { result ≡ nat_le (cube root) n }
{
    let root = u128::from(root);
    root * root * root <= n
}

//! The rows of the demo.

ghost use Rattle.std.specs.Prelude.{◌≡◌, ◌<◌};
ghost use Rattle.r2u2_cli.specs.DemoRow.{demo_row as row_at, demo_value as value_at};

/// Returns the row k of the demo, counted from 0, for a seed: `a`, `b` and `x`.
pub fn demo_row(seed: u32, k: u64) -> [i64; 3]
    ensures { result ≡ row_at seed k }
{
    let value = demo_value(seed, k);
    let a = i64::from(value % 3 == 0);
    let b = i64::from(value % 5 < 2);
    [a, b, value as i64 - 500]
}

/// Returns the number from which a row is generated.
fn demo_value(seed: u32, k: u64) -> u64
    ensures value { result ≡ value_at seed k }
    ensures low { result < 1000 }
{
    let square = (k % 65_536).pow(2);
    (square * 7 + k % 999 * 13 + u64::from(seed) * 31) % 1_000
}

//! The text of the demo.

/// The specification that the demo monitors.
pub const DEMO_TEXT: &[u8] = b"INPUT a, b: bool; x: int;
FTSPEC resp: a -> F[0,3] b; low: G[0,2] (x < 0); agc: a => F[0,1] b;
PTSPEC once: O[0,4] a;
";

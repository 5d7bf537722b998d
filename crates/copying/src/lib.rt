// Bytes copied to the front of a lent buffer.
#![tactic(auto)]

ghost use Rattle.std.specs.Prelude.{◌≡◌, ◌++◌, length, take, drop, min};

// Copies as many bytes as both have to the front of `to`, leaves what stands behind them, and answers how many these are.
pub fn copy(from: &[u8], to: &mut [u8]) -> usize
    ensures count { result ≡ min (length from.now) (length to.old) }
    ensures left { to.new ≡ take (min (length from.now) (length to.old)) from.now ++ drop (min (length from.now) (length to.old)) to.old }
{
    let n = if from.len() < to.len() {
        from.len()
    } else {
        to.len()
    };
    to[..n].copy_from_slice(&from[..n]);
    n
}

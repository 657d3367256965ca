//! What two lists of numbers have alike.
ghost use Rattle.std.specs.Prelude.{◌≡◌, ◌≤◌, length, take};

/// How many numbers two lists have alike from the first on.
pub fn alike(one: &[u32], other: &[u32]) -> usize
    ensures one { result ≤ length one.now }
    ensures other { result ≤ length other.now }
    ensures same { take result one.now ≡ take result other.now }
{
    let most = one.len().min(other.len());
    for count in 0..most {
        if one[count] != other[count] {
            return count;
        }
    }
    most
}

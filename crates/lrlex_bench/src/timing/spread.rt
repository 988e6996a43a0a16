//! The median, the best and the worst of several times.
ghost use Rattle.std.specs.Prelude.{◌≡◌, ◌-◌, ◌/◌, length, slice_index};
ghost use Rattle.std.specs.List.Sorted.{IsNonDecreasing, IsPermutation};

/// Of several times in nanoseconds: the middle one, the shortest and the longest.
#[derive(Clone, Copy)]
pub struct Spread {
    pub median: u128,
    pub best: u128,
    pub worst: u128,
}

/// The spread of these times, which are put in order. All three are 0 where there is no time.
pub fn spread_of(times: &mut [u128]) -> Spread
    ensures same { IsPermutation times.old times.new }
    ensures order { IsNonDecreasing times.new }
    ensures median { result.median ≡ slice_index times.new (length times.new / 2) }
    ensures best { result.best ≡ slice_index times.new 0 }
    ensures worst { result.worst ≡ slice_index times.new (length times.new - 1) }
{
    times.sort_unstable();
    Spread {
        median: times.get(times.len() / 2).copied().unwrap_or(0),
        best: times.first().copied().unwrap_or(0),
        worst: times.last().copied().unwrap_or(0),
    }
}

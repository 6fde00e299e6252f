ghost use Rattle.std.specs.Prelude.{◌≡◌, ◌<◌, ◌-◌, ◌/◌, length};

/// The index of the first train.
pub fn first_of(_trains: &[u64]) -> usize
    requires { 0 < length _trains.now }
    ensures { result ≡ 0 }
{
    0
}

/// The index of the last train.
pub fn last_of(trains: &[u64]) -> usize
    requires { 0 < length trains.now }
    ensures { result ≡ length trains.now - 1 }
{
    trains.len() - 1
}

/// The index of the train in the middle, the later one of two.
pub fn middle_of(trains: &[u64]) -> usize
    requires { 0 < length trains.now }
    ensures { result ≡ length trains.now / 2 }
{
    trains.len() / 2
}

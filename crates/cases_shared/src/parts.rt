// The first so many of a slice; all of it where there are fewer.
ghost use Rattle.std.specs.Prelude.{◌≡◌, take};

pub fn first<T>(held: &[T], count: usize) -> &[T]
    ensures { result.now ≡ take count held.now }
{
    &held[..count.min(held.len())]
}

pub fn first_mut<T>(held: &mut [T], count: usize) -> &mut [T]
    ensures { result.now ≡ take count held.old }
{
    let room = held.len();
    &mut held[..count.min(room)]
}

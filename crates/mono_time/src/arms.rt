// Arming a key of the wheel.
ghost use Rattle.std.specs.Prelude.{◌≡◌, ◌≢◌, ◌<◌, ◌≤◌, ◌+◌, ◌-◌, ◌^◌, true, None};
ghost use Rattle.mono_wheel.specs.Model.{timed_at, is_reserved};
ghost use Rattle.mono_wheel.specs.Credit.{credit, most_takes};
ghost use Rattle.mono_time.specs.Representation.{ArmedAnew, Rearmed};

use mono_wheel::Wheel;

/// Inserts a key that is out, to be due at a tick above the elapsed tick.
pub(crate) fn put_in(wheel: &mut Wheel, key: usize, tick: u64)
    requires reserved { is_reserved wheel.old key ≡ true }
    requires out { timed_at wheel.old key ≡ None }
    requires above { wheel.old.elapsed < tick }
    requires range { tick < 2 ^ 63 }
    ensures armed { ArmedAnew wheel.old wheel.new key tick }
    ensures raise { credit wheel.new ≤ credit wheel.old + most_takes (tick - wheel.old.elapsed) }
{
    let put = wheel.insert(key, tick);
    prove!(put.is_ok());
}

/// Makes a key that is in due at another tick above the elapsed tick. A key that becomes due later, or at the same
/// tick, keeps its place.
pub(crate) fn put_later(wheel: &mut Wheel, key: usize, tick: u64)
    requires reserved { is_reserved wheel.old key ≡ true }
    requires within { timed_at wheel.old key ≢ None }
    requires above { wheel.old.elapsed < tick }
    requires range { tick < 2 ^ 63 }
    ensures armed { Rearmed wheel.old wheel.new key tick }
    ensures raise { credit wheel.new ≤ credit wheel.old + most_takes (tick - wheel.old.elapsed) }
{
    if !wheel.extend(key, tick) {
        put_anew(wheel, key, tick);
    }
}

// Takes out a key that is in, and inserts it at another tick above the elapsed tick.
fn put_anew(wheel: &mut Wheel, key: usize, tick: u64)
    requires reserved { is_reserved wheel.old key ≡ true }
    requires within { timed_at wheel.old key ≢ None }
    requires above { wheel.old.elapsed < tick }
    requires range { tick < 2 ^ 63 }
    ensures armed { ArmedAnew wheel.old wheel.new key tick }
    ensures raise { credit wheel.new ≤ credit wheel.old + most_takes (tick - wheel.old.elapsed) }
{
    wheel.remove(key);
    put_in(wheel, key, tick);
}

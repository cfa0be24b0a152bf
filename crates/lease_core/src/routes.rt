// The core of a key.
ghost use Rattle.std.specs.Prelude.{◌≡◌, ◌<◌};
ghost use Rattle.lease_core.specs.Routes.{core_of};

// An odd number near 2^64 divided by the golden ratio: multiplication by it spreads keys that differ little.
const SPREAD: u64 = 11400714819323198485;

/// Returns the core of a key, below `cores`. It depends on nothing but the key and the number of cores.
pub fn core_of(key: u64, cores: u64) -> u64
    requires { 0 < cores }
    ensures route { result ≡ core_of key cores }
    ensures below { result < cores }
{
    (key.wrapping_mul(SPREAD) >> 32) % cores
}

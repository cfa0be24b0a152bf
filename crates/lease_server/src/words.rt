// The words of the command line.
ghost use Rattle.std.specs.Prelude.{◌<◌, ◌≤◌};

use lease_core::Sizes;

/// The number of cores, the sizes of each, and whether their clocks stay at 0.
#[derive(Clone, Copy, Drop)]
pub struct Settings {
    pub cores: u64,
    pub sizes: Sizes,
    pub is_still: bool,
    pub ghost has_cores: { (0 < cores) × (cores ≤ 64) },
}

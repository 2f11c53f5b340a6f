//! How few buses can do at all.
ghost use Rattle.std.specs.Prelude.{◌≡◌, ◌<◌};
ghost use Rattle.std.specs.List.{All};
ghost use Rattle.a429_pack.specs.Windows.{raw_bound};

/// The raw bound: a lower bound on the buses of any schedule that goes on without an end and sends each output within
/// its own window. A window is at least one slot. The bound is the sum of 1 / window, rounded up; each term is first
/// cut off after 32 binary digits, so that the bound is never too high (profile: raw bound; law `raw_bound_holds`).
pub fn raw_bound(windows: &[u32]) -> usize
    requires some { All (λ window. 0 < window) windows.now }
    ensures { result ≡ raw_bound windows.now }
{
    let mut total: u128 = 0;
    for window in windows {
        total += (1 << 32) / u128::from(*window);
    }
    total.div_ceil(1 << 32) as usize
}

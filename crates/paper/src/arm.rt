// Arms: whole hundredths of a millimetre, positive aft of the datum.
ghost use Rattle.std.specs.Prelude.{◌≡◌};
ghost use Rattle.paper.specs.Units.{is_arm};

pub const LEAST: i64 = -MOST;

pub const MOST: i64 = 2_000_000;

// A distance has no sign.
pub const DISTANCE_MOST: u64 = MOST as u64;

pub fn holds(hundredths: i64) -> bool
    ensures { result ≡ is_arm hundredths }
{
    LEAST <= hundredths && hundredths <= MOST
}

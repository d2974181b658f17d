ghost use Rattle.std.specs.Prelude.{◌≡◌, ◌<◌, ◌≤◌};
ghost use Rattle.script_sites.specs.declared.settings.TheConstants.{MAX_FIRST, MAX_SITES, MIN_WIDTH, MAX_WIDTH};
ghost use Rattle.script_sites.specs.declared.settings.TheConstants.{MIN_HEIGHT, MAX_HEIGHT};

/// The most sites of a run.
pub const MAX_SITES: u16 = 8;

/// The greatest number of a run's first site; the others follow it.
pub const MAX_FIRST: u16 = u16::MAX - (MAX_SITES - 1);

/// The fewest and the most columns of a screen.
pub const MIN_WIDTH: u16 = viewers::MIN_WIDTH as u16;

pub const MAX_WIDTH: u16 = viewers::MAX_WIDTH as u16;

/// The fewest and the most rows of a screen.
pub const MIN_HEIGHT: u16 = viewers::MIN_HEIGHT as u16;

pub const MAX_HEIGHT: u16 = viewers::MAX_HEIGHT as u16;

/// What a run is told beside its script.
#[derive(Clone, Copy, Debug, PartialEq, Eq)]
pub struct Settings {
    /// The first site's number, 1 to 65528; the others follow it.
    pub first: u16,
    /// How many sites there are, 1 to 8.
    pub count: u16,
    /// The columns of each site's screen, 20 to 200.
    pub width: u16,
    /// The rows of each site's screen, 8 to 100.
    pub height: u16,
    ghost first_in_range: { (0 < first) × (first ≤ MAX_FIRST) },
    ghost count_in_range: { (0 < count) × (count ≤ MAX_SITES) },
    ghost width_in_range: { (MIN_WIDTH ≤ width) × (width ≤ MAX_WIDTH) },
    ghost height_in_range: { (MIN_HEIGHT ≤ height) × (height ≤ MAX_HEIGHT) },
}

impl Default for Settings {
    ghost is_default = { λ s. (s.first ≡ 1) × (s.count ≡ 2) × (s.width ≡ 80) × (s.height ≡ 24) };

    /// The sites 1 and 2, with screens of 80 by 24.
    fn default() -> Self {
        Settings {
            first: 1,
            count: 2,
            width: 80,
            height: 24,
        }
    }
}

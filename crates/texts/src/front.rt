ghost use Rattle.std.specs.Prelude.{◌≡◌};
ghost use Rattle.texts.specs.Fronts.{front_in};

use char_files::SiteNo;

/// How far a site's operations go: the seq of the last of them that is meant, 0 for none.
#[derive(Clone, Copy, Debug, PartialEq, Eq)]
pub struct Front {
    pub site: SiteNo,
    pub seq: u32,
}

/// The seq that these fronts give a site: of the first that is its, 0 where there is none.
pub fn front_in(fronts: &[Front], site: SiteNo) -> u32
    ensures { result ≡ front_in fronts.now site }
{
    for front in fronts {
        if front.site == site {
            return front.seq;
        }
    }
    0
}

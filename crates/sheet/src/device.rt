// A sheet beside its layout: what the commands are judged by.
ghost use Rattle.std.specs.Prelude.{◌≡◌};
ghost use Rattle.sheet.specs.Sound.{Counted, Counted-prop, counts_of};

use crate::walk::Layout;
use regions::search::Regions;

// A sheet whose counted records lie in it, its regions ordered and apart.
#[derive(Clone, Copy)]
pub struct Device<'a> {
    pub sheet: &'a [u8],
    pub layout: Layout,
    ghost counted: { Counted sheet.now (counts_of layout) } by { Counted-prop sheet.now (counts_of layout) },
}

impl<'a> Device<'a> {
    pub fn regions(&self) -> Regions<'a>
        ensures sheet { result.sheet.now ≡ self.now.sheet.now }
        ensures count { result.count ≡ self.now.layout.regions }
    {
        Regions {
            sheet: self.sheet,
            count: self.layout.regions,
        }
    }
}

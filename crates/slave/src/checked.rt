// A valid sheet beside its layout: what every exchange goes on with.
ghost use Rattle.std.specs.Prelude.{◌≡◌, Ok};
ghost use Rattle.sheet.specs.Walk.{verdict_of};

use sheet::device::Device;
use sheet::walk::Layout;

// A device whose layout is the sheet's own: the sheet was checked, and is not checked again.
#[derive(Clone, Copy)]
pub struct Checked<'a> {
    pub device: Device<'a>,
    ghost valid: { verdict_of device.sheet.now ≡ Ok device.layout },
}

// What a scope holds, and what it is given back for.
ghost use Rattle.std.specs.Prelude.{◌≡◌};

use cd_elem::Site;
use cd_world::Descriptor;

/// An open file of a site.
#[derive(Clone, Copy, PartialEq, Eq)]
pub struct Held {
    pub site: Site,
    pub descriptor: Descriptor,
}

/// What an open file is given back for. It must be spent: by `Scope::release`, or by `Scope::leave`.
pub struct Ticket {
    pub(crate) site: Site,
    pub(crate) descriptor: Descriptor,
}

impl Ticket {
    /// The site whose file is open.
    pub fn site(&self) -> Site
        ensures { result ≡ self.now.site }
    {
        self.site
    }

    /// Where it is read or written.
    pub fn descriptor(&self) -> Descriptor
        ensures { result ≡ self.now.descriptor }
    {
        self.descriptor
    }
}

// Method patterns on methods.
ghost use Rattle.std.specs.Prelude.{◌↔◌, IsTrue};
ghost use Rattle.method_pattern.specs.Matching.{Matches};

use crate::names::{name_fits, text_fits};
use crate::params::params_fit;
use crate::pattern::MethodPattern;
use jtypes::MethodSig;

impl MethodPattern {
    /// Whether the pattern matches a declared method. Takes no memory.
    pub fn matches(&self, method: &MethodSig) -> bool
        ensures { IsTrue result ↔ Matches self.now method.now }
    {
        name_fits(self.owner.pieces.as_slice(), method.owner.as_slice())
            && text_fits(self.name.as_slice(), method.name.as_slice())
            && params_fit(self.params.as_slice(), method.params.as_slice())
    }
}

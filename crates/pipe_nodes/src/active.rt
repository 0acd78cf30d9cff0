ghost use Rattle.std.specs.Prelude.{◌≡◌, ◌↔◌, IsTrue, IfOk};
ghost use Rattle.pipe_nodes.specs.Active.{IsFit};

use params::{Blend, Params};
use std::alloc::{AllocError, Global};

/// A module instance as it stands in a pipe: its number among the instances of its module, its settings,
/// and how its output is blended with its input, if it is.
#[derive(Debug, PartialEq, Eq, Hash, Drop)]
pub struct Active {
    pub instance: u8,
    pub params: Params,
    pub blend: Option<Blend>,
}

impl Active {
    /// The same once more.
    pub fn copy(&self, alloc: Global) -> Result<Active, AllocError>
        ensures { IfOk result (λ active. active ≡ self.now) }
    {
        Ok(Active {
            instance: self.instance,
            params: params::copy(alloc, &self.params)?,
            blend: self.blend,
        })
    }

    /// Whether its numbers are within their ranges, and a blend stands only where the module blends.
    #[tactic(auto, using(crate::proofs::ActiveLemmas::fit_tells))]
    pub fn is_fit(&self) -> bool
        ensures { IsTrue result ↔ IsFit self.now }
    {
        let params = params::check(&self.params);
        let blend = params::check_blend(self.params.module(), self.blend.as_ref());
        params.is_ok() && blend.is_ok()
    }
}

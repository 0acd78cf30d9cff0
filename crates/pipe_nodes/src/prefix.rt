ghost use Rattle.std.specs.Prelude.{◌≡◌, ◌↔◌, IsTrue, ◌≤◌, ◌<◌, ◌++◌, ◌∷◌, [], length, map, slice_get, Some, IfOk, vec_len, vec_capacity};
ghost use Rattle.std.specs.Arc.{arc_value};
ghost use Rattle.std.specs.Cmp.{partial_equiv_from_equiv};
ghost use Rattle.pipe_nodes.specs.Active.{IsFit};
ghost use Rattle.pipe_nodes.specs.Prefix.{prefix, IsPrefix};
ghost use Rattle.pipe_nodes.specs.SamePrefix.{same_prefix, same_prefix_equiv, prefix_input, prefix_input_alike};

use crate::active::Active;
use std::alloc::{AllocError, Global};
use std::hash::{Hash, Hasher};
use std::marker::Model;
use std::sync::Arc;

/// A mipmap level of a source, 0 to 8, and the module instances that a run has applied to it, in order.
/// Prefixes of one run share the instances.
#[derive(Debug, Drop)]
pub struct Prefix {
    level: u8,
    actives: Arc<Vec<Arc<Active>>>,
}

impl Model for Prefix {
    ghost use Rattle.std.specs.Prelude.{map};
    ghost use Rattle.std.specs.Arc.{arc_value};
    ghost use Rattle.pipe_nodes.specs.Prefix.{PrefixSeen, prefix, IsPrefix};

    ghost Value = { PrefixSeen };

    ghost view = { λ p. prefix p.level (map arc_value (arc_value p.actives).items) };

    ghost invariant = { λ p. IsPrefix (prefix p.level (map arc_value (arc_value p.actives).items)) };
}

// The same instances once more, shared, with room for one that follows.
fn share_all(alloc: Global, actives: &[Arc<Active>]) -> Result<Vec<Arc<Active>>, AllocError>
    ensures items { IfOk result (λ shared. map arc_value shared.items ≡ map arc_value actives.now) }
    ensures room { IfOk result (λ shared. vec_len shared < vec_capacity shared) }
{
    let mut shared = Vec::with_capacity(alloc, actives.len() + 1)?;
    for active in actives {
        shared.push_reserved(Arc::try_clone(active)?);
    }
    Ok(shared)
}

impl Prefix {
    /// Nothing applied yet, to a level of 0 to 8.
    pub fn start(alloc: Global, level: u8) -> Result<Prefix, AllocError>
        requires { level ≤ 8 }
        ensures { IfOk result (λ p. p ≡ prefix level []) }
    {
        let actives = Arc::new(alloc, Vec::new(alloc))?;
        Ok(Prefix { level, actives })
    }

    /// This prefix, followed by one more instance.
    pub fn then(&self, alloc: Global, active: &Active) -> Result<Prefix, AllocError>
        requires { IsFit active.now }
        ensures { IfOk result (λ p. p ≡ prefix self.now.level (self.now.actives ++ active.now ∷ [])) }
    {
        let mut actives = share_all(alloc, &self.actives)?;
        actives.push_reserved(Arc::new(alloc, active.copy(alloc)?)?);
        let actives = Arc::new(alloc, actives)?;
        Ok(Prefix {
            level: self.level,
            actives,
        })
    }

    /// The same prefix once more. Takes no memory.
    pub fn share(&self) -> Result<Prefix, AllocError>
        ensures { IfOk result (λ p. p ≡ self.now) }
    {
        let actives = Arc::try_clone(&self.actives)?;
        Ok(Prefix {
            level: self.level,
            actives,
        })
    }

    /// How many instances were applied.
    pub fn len(&self) -> usize
        ensures value { result ≡ length self.now.actives }
        ensures valid { IsPrefix self.now }
    {
        self.actives.len()
    }

    /// The level, 0 to 8.
    pub fn level(&self) -> u8
        ensures level { result ≡ self.now.level }
        ensures valid { IsPrefix self.now }
    {
        self.level
    }

    /// The instance that was applied at place `i`, counted from 0.
    pub fn at(&self, i: usize) -> &Active
        requires { i < length self.now.actives }
        ensures { slice_get self.now.actives i ≡ Some result.now }
    {
        &self.actives[i]
    }
}

impl PartialEq for Prefix {
    ghost eq = { same_prefix };

    ghost laws = { partial_equiv_from_equiv same_prefix_equiv };

    fn eq(&self, other: &Prefix) -> bool
        ensures value { result ≡ same_prefix self.now other.now }
        ensures same { IsTrue result ↔ (self.now ≡ other.now) }
    {
        self.level == other.level && self.actives == other.actives
    }
}

impl Eq for Prefix {
    ghost laws = { same_prefix_equiv };
}

impl Hash for Prefix {
    ghost hash_input = { prefix_input };

    ghost respects_eq = { prefix_input_alike };

    fn hash<H: Hasher>(&self, state: &mut H) {
        self.level.hash(state);
        self.actives.hash(state);
    }
}

//! Which entities have components.

ghost use Rattle.std.specs.List.{list_all};
ghost use Rattle.std.specs.Prelude.{◌≡◌, ◌<◌, ◌≤◌, ℕ, false, [], ◌∷◌, IfSome, MatchOption};
ghost use Rattle.bittle.specs.Searches.{IsFirstIn};
ghost use Rattle.bittle.specs.Values.{set_in, ShapeFits};
ghost use Rattle.bit_entities.specs.Entities.{world_of, EndsAtCapacity, matching, having};
ghost use Rattle.bit_entities.specs.Entities.{IncludesMatching};

use crate::World;
use bittle::BitsOwned;

impl<B: BitsOwned, const N: usize> World<B, N> {
    /// Returns the mask of the living entities that have each of the `required` components. If none
    /// is required, the mask has all living entities. If a required number is no component, the
    /// mask is empty. The mask is a copy, so you may change the world while you use the mask. Each
    /// word is read once for each component.
    pub fn matching(&self, required: &[u32]) -> B
        ensures mask { set_in B.Shape B.Order.Endian result ≡ matching
            (world_of N (set_in B.Shape B.Order.Endian) self.now.alive self.now.components)
            required.now }
        ensures fits { ShapeFits B.Shape result }
        ensures capacity { (B.big result).capacity ≡ B.type_capacity }
    {
        let mut mask = self.alive;
        for i in 0..required.len() {
            mask = self.those_having(mask, required[i]);
        }
        mask
    }

    /// Lends the mask of the entities that have a component, or returns `None` if there is no such
    /// component. The world cannot change meanwhile; `matching(&[component])` returns a copy. It
    /// costs O(1).
    pub fn having(&self, component: u32) -> Option<&B>
        ensures mask { IfSome result (λ mask. set_in B.Shape B.Order.Endian mask.now ≡ matching
            (world_of N (set_in B.Shape B.Order.Endian) self.now.alive self.now.components)
            (component ∷ [])) }
        ensures fits { IfSome result (λ mask. ShapeFits B.Shape mask.now) }
        ensures capacity { IfSome result (λ mask. (B.big mask.now).capacity ≡ B.type_capacity) }
        ensures there { MatchOption result (N ≤ component) (λ mask. component < N) }
    {
        let mask = self.components.get(component as usize)?;
        Some(mask)
    }

    // Returns the mask of those entities of `mask` that have the component. The result is empty if
    // there is no such component.
    fn those_having(&self, mask: B, component: u32) -> B
        ensures { EndsAtCapacity (set_in B.Shape B.Order.Endian mask) →
            set_in B.Shape B.Order.Endian result ≡ having
            (world_of N (set_in B.Shape B.Order.Endian) self.now.alive self.now.components)
            (set_in B.Shape B.Order.Endian mask) component }
    {
        match self.components.get(component as usize) {
            Some(those) => mask.conjunction(*those),
            None => B::zeros(),
        }
    }

    /// Returns the least living entity that is at least `from` and has each of the `required`
    /// components, or `None` if there is none. A number at or past the capacity is no entity. The
    /// call reads the mask of the first required component (or of the living entities, if none is
    /// required), from `from` up to the answer. For each entity found there it tests one bit of
    /// each required mask, up to the first mask that lacks the entity.
    pub fn first_with(&self, required: &[u32], from: u32) -> Option<u32>
        ensures first { IsFirstIn (matching
            (world_of N (set_in B.Shape B.Order.Endian) self.now.alive self.now.components)
            required.now) from B.type_capacity result }
        ensures below { IfSome result (λ entity. entity < B.type_capacity) }
    {
        let mask = self.lead(required)?;
        let mut at = from;
        while at < B::bits() {
            let entity = mask.first_one_in::<B::Order>(at, B::bits())?;
            if self.has_all(entity, required) {
                return Some(entity);
            }
            at = entity + 1;
        }
        None
    }

    // Returns the mask of the first required component, or the mask of the living entities if no
    // component is required. If the first required component does not exist, returns `None`.
    fn lead(&self, required: &[u32]) -> Option<&B>
        ensures { let world = world_of N (set_in B.Shape B.Order.Endian) self.now.alive
            self.now.components in MatchOption result
            ((entity : ℕ) → (matching world required.now).has entity ≡ false)
            (λ mask. IncludesMatching world required.now (set_in B.Shape B.Order.Endian mask.now)) }
    {
        let Some(component) = required.first() else {
            return Some(&self.alive);
        };
        let mask = self.components.get(*component as usize)?;
        Some(mask)
    }

    // Returns whether an entity has each of the required components.
    fn has_all(&self, entity: u32, required: &[u32]) -> bool
        ensures { let world = world_of N (set_in B.Shape B.Order.Endian) self.now.alive
            self.now.components in result ≡ list_all (world.has entity) required.now }
    {
        for i in 0..required.len() {
            if !self.has(entity, required[i]) {
                return false;
            }
        }
        true
    }
}

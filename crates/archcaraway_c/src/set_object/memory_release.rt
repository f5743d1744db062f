//! A set frees memory.

ghost use Rattle.std.specs.Prelude.{◌≡◌, IfErr};

use super::SetObject;
use crate::refusal::Refusal;
use wire::WireError;

impl SetObject {
    /// Frees memory that the set doesn't need for its boundaries, as
    /// [`conflict::ConflictSet::trim`] does. Returns `Wire` of `Memory` if an allocation fails,
    /// which is no stop. The set is as before in both cases, and one that has stopped stays
    /// stopped.
    pub fn trim(&mut self) -> Result<(), Refusal>
        ensures same { self.new ≡ self.old }
        ensures memory { IfErr result (λ refusal. refusal ≡ Refusal.Wire WireError.Memory) }
    {
        match self.set.trim() {
            Ok(()) => Ok(()),
            Err(_) => Err(Refusal::Wire(WireError::Memory)),
        }
    }
}

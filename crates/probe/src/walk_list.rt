//! Walks in an order, wherever their turns lie.

ghost use Rattle.std.specs.Prelude.{◌≡◌, ℤ, List, ◌<◌, length, slice_get, Some};

/// Walks that are looked at by their places. Chains are made over them.
pub(crate) trait WalkList {
    /// The walks, in their order.
    ghost list: { Self → List (List ℤ) };

    /// How many there are.
    fn count(&self) -> usize
        ensures { result ≡ length (list self.now) };

    /// The turns of the walk at a place.
    fn turns_at(&self, at: usize) -> &[i8]
        requires { at < length (list self.now) }
        ensures { slice_get (list self.now) at ≡ Some result.now };
}

//! Lists that are emptied and filled again, in the memory that they have.
ghost use Rattle.std.specs.Prelude.{◌≡◌, [], reverse};

use cp_base::Items;
use std::alloc::Global;
use std::mem;

/// The items of a list, the last one first. The list is left empty.
#[tactic(auto, using(crate::proofs::Turned::turned_twice))]
pub fn take_backwards<T>(alloc: Global, items: &mut Items<T>) -> Vec<T>
    ensures taken { reverse result.items ≡ items.old }
    ensures left { items.new ≡ [] }
{
    let mut taken = mem::replace(items, Items::new(alloc)).into_vec();
    taken.reverse();
    taken
}

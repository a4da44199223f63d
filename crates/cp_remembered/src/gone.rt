//! The list of destroyed objects.
ghost use Rattle.std.specs.Prelude.{◌≡◌, [], is_some, IfOk, OnOk, OnErr, if◌then◌else◌};
ghost use Rattle.cp_group_state.specs.Rows.{find, put, has_room, most, object_cmp};
ghost use Rattle.cp_group_state.specs.Invariants.{IsRising};

use cp_base::limits::MOST_ROWS;
use cp_base::{Items, Name, NoMemory};
use cp_ops::Kind;
use cp_rows::from_rows;
use std::alloc::Global;
use std::collections::BTreeMap;
use std::marker::Model;

/// The objects of a group that were destroyed, which contracts see as their list by rising name, and under one name
/// by kind.
#[derive(Debug, Drop)]
pub struct Gone {
    objects: BTreeMap<(Name, Kind), ()>,
}

impl Model for Gone {
    ghost use Rattle.std.specs.Prelude.{List};
    ghost use Rattle.cp_group_state.specs.Rows.{Object};

    ghost Value = { List (Object × Unit {0}) };

    ghost view = { λ gone. gone.objects.entries };
}

/// Whether an object is in the list.
fn has(objects: &BTreeMap<(Name, Kind), ()>, object: &(Name, Kind)) -> bool
    ensures { result ≡ is_some (find object_cmp objects.now.entries object.now) }
{
    objects.contains_key(object)
}

/// Puts an object into the list, or leaves the list.
fn put(objects: &mut BTreeMap<(Name, Kind), ()>, object: (Name, Kind)) -> Result<(), NoMemory>
    ensures ok { OnOk result (objects.new.entries ≡ put object_cmp objects.old.entries object tt) }
    ensures err { OnErr result (objects.new.entries ≡ objects.old.entries) }
{
    objects.insert(object, ())?;
    Ok(())
}

/// The list of these rows, whose objects rise.
fn list_of(
    alloc: Global,
    rows: Items<((Name, Kind), ())>,
) -> Result<BTreeMap<(Name, Kind), ()>, NoMemory>
    requires { IsRising object_cmp rows }
    ensures { IfOk result (λ objects. objects.entries ≡ rows) }
{
    from_rows(alloc, rows)
}

impl Gone {
    /// The empty list.
    pub fn new(alloc: Global) -> Result<Gone, NoMemory>
        ensures { IfOk result (λ gone. gone ≡ []) }
    {
        Ok(Gone {
            objects: BTreeMap::new(alloc),
        })
    }

    /// The list of these rows, by rising name, and under one name by kind.
    pub fn from_rows(alloc: Global, rows: Items<((Name, Kind), ())>) -> Result<Gone, NoMemory>
        requires { IsRising object_cmp rows }
        ensures { IfOk result (λ gone. gone ≡ rows) }
    {
        Ok(Gone {
            objects: list_of(alloc, rows)?,
        })
    }

    /// The objects, by rising name, and under one name by kind.
    pub fn rows(&self) -> &BTreeMap<(Name, Kind), ()>
        ensures { result.now.entries ≡ self.now }
    {
        &self.objects
    }

    /// Whether the object of this kind and name was destroyed.
    pub fn is_gone(&self, kind: Kind, name: &Name) -> Result<bool, NoMemory>
        ensures { IfOk result (λ gone. gone ≡ is_some (find object_cmp self.now (name.now, kind))) }
    {
        if self.objects.is_empty() {
            return Ok(false);
        }
        let object = (name.clone()?, kind);
        Ok(has(&self.objects, &object))
    }

    /// Adds the object of this kind and name, and tells whether there was room for it: an object that is in the list
    /// takes none. Without room, or where memory runs out, the list stays.
    pub fn add(&mut self, kind: Kind, name: &Name) -> Result<bool, NoMemory>
        ensures room { IfOk result (λ added. added ≡ has_room object_cmp most self.old (name.now, kind)) }
        ensures rows { IfOk result (λ added. self.new ≡ (if added then put object_cmp self.old (name.now, kind) tt else self.old)) }
        ensures err { OnErr result (self.new ≡ self.old) }
    {
        let object = (name.clone()?, kind);
        if self.objects.len() >= MOST_ROWS as usize && !has(&self.objects, &object) {
            return Ok(false);
        }
        put(&mut self.objects, object)?;
        Ok(true)
    }
}

//! The order in which the files of a folder go out.

ghost use Rattle.std.specs.Prelude.{◌≡◌, ◌++◌, ◌∷◌, ◌≤◌, take, drop, length, map, string_bytes, IfOk, OnOk, if◌then◌else◌};
ghost use Rattle.norm_folder.specs.Entries.{put_name, in_order, names_of};

use norm_base::{Memory, Text};
use norm_script::Named;
use std::alloc::Global;
use std::cmp::Ordering;

/// Where a name stands among names in order: its index, and whether it is there already.
fn place_of(names: &[Text], name: &[u8]) -> (usize, bool)
    ensures within { result.0 ≤ length names.now }
    ensures place { put_name names.now name.now ≡
        (if result.1 then names.now else (take result.0 names.now ++ name.now ∷ drop result.0 names.now)) }
{
    for (i, x) in names.iter().enumerate() {
        match name.cmp(x.bytes()) {
            Ordering::Less => return (i, false),
            Ordering::Equal => return (i, true),
            Ordering::Greater => {}
        }
    }
    (names.len(), false)
}

/// Puts a name among names in order. Does nothing if it is there already.
fn put_name(names: &mut Vec<Text>, name: Text) -> Result<(), Memory>
    ensures { OnOk result (names.new.items ≡ put_name names.old.items name) }
{
    let (at, is_there) = place_of(names, name.bytes());
    if is_there {
        return Ok(());
    }
    names.insert(at, name)?;
    Ok(())
}

/// Returns the names in order, octet by octet.
pub(crate) fn in_order(alloc: Global, named: &[Named]) -> Result<Vec<Text>, Memory>
    ensures { IfOk result (λ names. names.items ≡ in_order (names_of named.now)) }
{
    let mut names = Vec::new(alloc);
    for x in named {
        let name = x.name.clone()?;
        put_name(&mut names, name)?;
    }
    Ok(names)
}

ghost use Rattle.std.specs.Prelude.{◌≡◌};
ghost use Rattle.fx_check.specs.Facts.{is_array};
ghost use Rattle.fx_walk.specs.State.{array_slot, counter_slot};

use fx_script::Decl;

/// Whether an array of this name is declared.
pub fn is_array(names: &[Decl], name: &[u8]) -> bool
    ensures { result ≡ is_array names.now name.now }
{
    for decl in names {
        if let Decl::Array { name: own, .. } = decl
            && own.as_slice() == name
        {
            return true;
        }
    }
    false
}

/// How many counters are declared before the one of this name: all, where there is none of it.
pub fn counter_slot(names: &[Decl], name: &[u8]) -> usize
    ensures { result ≡ counter_slot names.now name.now }
{
    let mut slot = 0;
    for decl in names {
        if let Decl::Counter { name: own, .. } = decl {
            if own.as_slice() == name {
                return slot;
            }
            slot += 1;
        }
    }
    slot
}

/// How many arrays are declared before the one of this name: all, where there is none of it.
pub fn array_slot(names: &[Decl], name: &[u8]) -> usize
    ensures { result ≡ array_slot names.now name.now }
{
    let mut slot = 0;
    for decl in names {
        if let Decl::Array { name: own, .. } = decl {
            if own.as_slice() == name {
                return slot;
            }
            slot += 1;
        }
    }
    slot
}

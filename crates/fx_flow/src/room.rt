ghost use Rattle.std.specs.Prelude.{◌≡◌, ◌∷◌, [], IfOk, get_or};

use fx_base::{Bytes, Elems, NoMemory};
use fx_value::Values;
use fx_walk::Printed;
use std::alloc::Global;

/// Nothing was printed yet, so there is no room to be used again.
pub fn no_print(alloc: Global) -> Printed
    ensures { result ≡ record { name = []; values = [] } }
{
    Printed {
        name: Bytes::new(alloc),
        values: Elems::new(alloc),
    }
}

/// A copy of a name, in the room of another.
pub fn name_in(room: Bytes, name: &Bytes) -> Result<Bytes, NoMemory>
    ensures { IfOk result (λ made. made ≡ name.now) }
{
    let mut made = room;
    made.clear();
    made.append(name.as_slice())?;
    Ok(made)
}

/// A copy of the elements of the array in this slot, none where there is no array, in the room of as many others.
pub fn array_in(room: Elems, values: &Values, slot: usize) -> Result<Elems, NoMemory>
    ensures { IfOk result (λ made. made ≡ get_or values.now.arrays slot []) }
{
    match values.elements(slot) {
        Some(elements) => elements_in(room, elements),
        None => Ok(none_in(room)),
    }
}

fn elements_in(room: Elems, elements: &Elems) -> Result<Elems, NoMemory>
    ensures { IfOk result (λ made. made ≡ elements.now) }
{
    if room.len() != elements.len() {
        return elements.copy();
    }
    let mut made = room;
    made.write(elements.as_slice());
    Ok(made)
}

fn none_in(room: Elems) -> Elems
    ensures { result ≡ [] }
{
    let mut made = room;
    made.clear();
    made
}

/// A number as the only element, in the room of others.
pub fn number_in(room: Elems, number: i64) -> Result<Elems, NoMemory>
    ensures { IfOk result (λ made. made ≡ number ∷ []) }
{
    let mut made = none_in(room);
    made.push(number)?;
    Ok(made)
}

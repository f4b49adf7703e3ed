ghost use Rattle.std.specs.Int.{w16};
ghost use Rattle.fx_store.specs.Packed.{byte_in, number_in};
ghost use Rattle.fx_pack.specs.Reading.{Gives, element_in};
ghost use Rattle.std.specs.Prelude.{◌≡◌};
ghost use Rattle.fx_pack.specs.declared.fields.Fault.TheVariants.{NoMemory as OutOfMemory};

use fx_base::NoMemory;

/// Why nothing is read.
#[derive(Clone, Copy, Debug, PartialEq, Eq)]
pub(crate) enum Fault {
    /// No front of the bytes is a packed snapshot.
    NotOne,
    /// Memory ran out.
    NoMemory,
}

impl From<NoMemory> for Fault {
    ghost from_gives = { λ _ e. e ≡ OutOfMemory };

    fn from(_error: NoMemory) -> Fault {
        Fault::NoMemory
    }
}

/// One byte, and what is behind it.
pub(crate) fn read_byte(bytes: &[u8]) -> Result<(u8, &[u8]), Fault>
    ensures { Gives (λ x. (x.0, x.1.now)) result (byte_in bytes.now) }
{
    match bytes {
        [] => Err(Fault::NotOne),
        [byte, rest @ ..] => Ok((*byte, rest)),
    }
}

/// A number of two bytes, the higher byte first, and what is behind it.
pub(crate) fn read_u16(bytes: &[u8]) -> Result<(u16, &[u8]), Fault>
    ensures { Gives (λ x. (x.0, x.1.now)) result (number_in w16 bytes.now) }
{
    if bytes.len() < 2 {
        return Err(Fault::NotOne);
    }
    let (front, rest) = bytes.split_at(2);
    Ok((u16::from_be_bytes([front[0], front[1]]), rest))
}

/// An element of eight bytes, in two's complement, and what is behind it.
pub(crate) fn read_i64(bytes: &[u8]) -> Result<(i64, &[u8]), Fault>
    ensures { Gives (λ x. (x.0, x.1.now)) result (element_in bytes.now) }
{
    if bytes.len() < 8 {
        return Err(Fault::NotOne);
    }
    let (front, rest) = bytes.split_at(8);
    let element = i64::from_be_bytes([
        front[0], front[1], front[2], front[3], front[4], front[5], front[6], front[7],
    ]);
    Ok((element, rest))
}

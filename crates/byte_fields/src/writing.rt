ghost use Rattle.std.specs.Int.{w16, w32, w64};
ghost use Rattle.byte_fields.specs.Fields.{Appends, number_spelling};

use byteorder::{BigEndian, ByteOrder};
use std::alloc::AllocError;

/// Appends a number's two bytes.
#[tactic(auto, unfolding(crate::specs::Fields::number_spelling))]
pub fn put_u16(out: &mut Vec<u8>, number: u16) -> Result<(), AllocError>
    ensures { Appends result out.old.items out.new.items (number_spelling w16 number) }
{
    let mut bytes = [0; 2];
    BigEndian::write_u16(&mut bytes, number);
    out.extend_from_slice(&bytes)
}

/// Appends a number's four bytes.
#[tactic(auto, unfolding(crate::specs::Fields::number_spelling))]
pub fn put_u32(out: &mut Vec<u8>, number: u32) -> Result<(), AllocError>
    ensures { Appends result out.old.items out.new.items (number_spelling w32 number) }
{
    let mut bytes = [0; 4];
    BigEndian::write_u32(&mut bytes, number);
    out.extend_from_slice(&bytes)
}

/// Appends a number's eight bytes.
#[tactic(auto, unfolding(crate::specs::Fields::number_spelling))]
pub fn put_u64(out: &mut Vec<u8>, number: u64) -> Result<(), AllocError>
    ensures { Appends result out.old.items out.new.items (number_spelling w64 number) }
{
    let mut bytes = [0; 8];
    BigEndian::write_u64(&mut bytes, number);
    out.extend_from_slice(&bytes)
}

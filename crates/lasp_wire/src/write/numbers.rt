//! Numbers, their highest byte first.

ghost use Rattle.std.specs.Prelude.{◌≡◌, ◌++◌, OnOk};
ghost use Rattle.lasp_wire.specs.Prelude.{number, signed_number, truth};

use std::alloc::AllocError;

pub fn put_u8(out: &mut Vec<u8>, n: u8) -> Result<(), AllocError>
    ensures { OnOk result (out.new.items ≡ out.old.items ++ number 1 n) }
{
    out.extend_from_slice(&n.to_be_bytes())
}

pub fn put_u16(out: &mut Vec<u8>, n: u16) -> Result<(), AllocError>
    ensures { OnOk result (out.new.items ≡ out.old.items ++ number 2 n) }
{
    out.extend_from_slice(&n.to_be_bytes())
}

pub fn put_u32(out: &mut Vec<u8>, n: u32) -> Result<(), AllocError>
    ensures { OnOk result (out.new.items ≡ out.old.items ++ number 4 n) }
{
    out.extend_from_slice(&n.to_be_bytes())
}

pub fn put_u64(out: &mut Vec<u8>, n: u64) -> Result<(), AllocError>
    ensures { OnOk result (out.new.items ≡ out.old.items ++ number 8 n) }
{
    out.extend_from_slice(&n.to_be_bytes())
}

pub fn put_i64(out: &mut Vec<u8>, n: i64) -> Result<(), AllocError>
    ensures { OnOk result (out.new.items ≡ out.old.items ++ signed_number n) }
{
    put_u64(out, n.cast_unsigned())
}

pub fn put_bool(out: &mut Vec<u8>, b: bool) -> Result<(), AllocError>
    ensures { OnOk result (out.new.items ≡ out.old.items ++ truth b) }
{
    let byte = if b { 1 } else { 0 };
    out.push(byte)?;
    Ok(())
}

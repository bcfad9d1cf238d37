//! How bytes and numbers are put into a buffer, and how all of them are written.
ghost use Rattle.std.specs.Prelude.{◌≡◌, ◌+◌, ◌≤◌, [], ◌++◌, length, IsOk, OnOk, OnErr, IfErr, vec_len};
ghost use Rattle.std.specs.Io.KnownBytes.{Appends};
ghost use Rattle.std.specs.Fmt.{decimal, signed_decimal};
ghost use Rattle.lv_bodies.specs.Names.{IsName};
ghost use Rattle.lv_lines.specs.Output.{HasRoom, KeepsRoom, Writes, WritesFront};

use crate::fault::Fault;
use itoa::Buffer;
use lv_bodies::Name;
use std::io::Write;

/// How many bytes of replies a reply buffer has room for.
pub const HELD: usize = 65_536;

/// Writes all of the bytes, and flushes.
///
/// A failed write or flush, and a write that takes no byte, is `WriteFault`; then a prefix of the bytes was written.
pub fn write_whole<W: Write>(writer: &mut W, bytes: &[u8]) -> Result<(), Fault>
    ensures ok { OnOk result (Appends (W.contents writer.old) (W.contents writer.new) bytes.now) }
    ensures fault { IfErr result (λ fault. (fault ≡ Fault.WriteFault)
        × WritesFront (W.contents writer.old) bytes.now (W.contents writer.new) []) }
{
    let mut rest = bytes;
    while !rest.is_empty() {
        match writer.write(rest) {
            Ok(0) | Err(_) => return Err(Fault::WriteFault),
            Ok(count) => (_, rest) = rest.split_at(count),
        }
    }
    let Ok(()) = writer.flush() else {
        return Err(Fault::WriteFault);
    };
    Ok(())
}

/// Puts bytes after what is held. The room for them was made before, so no memory is taken.
pub fn put(held: &mut Vec<u8>, bytes: &[u8])
    requires { HasRoom held.old (length bytes.now) }
    ensures items { held.new.items ≡ held.old.items ++ bytes.now }
    ensures len { vec_len held.new ≡ vec_len held.old + length bytes.now }
    ensures capacity { KeepsRoom held.old held.new }
{
    let Ok(()) = held.extend_from_slice(bytes) else {
        unreachable!();
    };
}

/// Puts the bytes of a name, at most 16, after what is held.
pub fn put_name(held: &mut Vec<u8>, name: Name)
    requires { HasRoom held.old 16 }
    ensures text { held.new.items ≡ held.old.items ++ name }
    ensures named { IsName name }
    ensures len { vec_len held.new ≤ vec_len held.old + 16 }
    ensures room { KeepsRoom held.old held.new }
{
    put(held, name.as_bytes());
}

/// Puts a number in plain decimal after what is held.
pub fn put_number(held: &mut Vec<u8>, n: u64)
    requires { HasRoom held.old 20 }
    ensures items { held.new.items ≡ held.old.items ++ decimal n }
    ensures len { vec_len held.new ≤ vec_len held.old + 20 }
    ensures capacity { KeepsRoom held.old held.new }
{
    put(held, Buffer::new().format(n).as_bytes());
}

/// Puts a number in plain decimal, with a `-` if it is negative, after what is held.
pub fn put_element(held: &mut Vec<u8>, x: i64)
    requires { HasRoom held.old 20 }
    ensures items { held.new.items ≡ held.old.items ++ signed_decimal x }
    ensures len { vec_len held.new ≤ vec_len held.old + 20 }
    ensures capacity { KeepsRoom held.old held.new }
{
    put(held, Buffer::new().format(x).as_bytes());
}

/// Puts a number of up to 128 bits in plain decimal, with a `-` if it is negative, after what is held.
pub fn put_wide(held: &mut Vec<u8>, wide: i128)
    requires { HasRoom held.old 40 }
    ensures items { held.new.items ≡ held.old.items ++ signed_decimal wide }
    ensures len { vec_len held.new ≤ vec_len held.old + 40 }
    ensures capacity { KeepsRoom held.old held.new }
{
    put(held, Buffer::new().format(wide).as_bytes());
}

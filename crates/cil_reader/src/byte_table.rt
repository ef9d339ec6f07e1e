//! Tables that tell which bytes are of a class.

ghost use Rattle.std.specs.Prelude.{◌<◌, length};
ghost use Rattle.cil_reader.specs.ByteTable.{HasOne};

/// Whether a table has 1 for a byte.
pub fn has_one(table: &[u8], b: u8) -> bool
    requires { b < length table.now }
    ensures { HasOne table.now b result }
{
    table[b as usize] == 1
}

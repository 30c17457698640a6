ghost use Rattle.std.specs.Prelude.{◌≡◌, ◌≤◌, length};
ghost use Rattle.mlir_opt.specs.Places.{line_after, column_after};

/// The line and the column of the byte after these, both from 1 and counted in bytes.
pub fn place_after(bytes: &[u8]) -> (u32, u32)
    requires { length bytes.now ≤ 4194304 }
    ensures line { result.0 ≡ line_after bytes.now }
    ensures column { result.1 ≡ column_after bytes.now }
{
    let mut line: u32 = 1;
    let mut column: u32 = 1;
    for byte in bytes {
        if *byte == b'\n' {
            line += 1;
            column = 1;
        } else {
            column += 1;
        }
    }
    (line, column)
}

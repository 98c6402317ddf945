// What is read, and how far.
ghost use Rattle.std.specs.Prelude.{◌≤◌, length};
ghost use Rattle.workspace.specs.Layout.{most_variables};

use limits::REGISTERS;

// Bytes to be read up to an end, with variables below a limit; the variable of a register is the node registers[v].
#[derive(Clone, Copy)]
pub struct Source<'a> {
    pub bytes: &'a [u8],
    pub end: usize,
    pub limit: usize,
    pub registers: [u32; REGISTERS],
    pub ghost end_in_bounds: { end ≤ length bytes.now },
    pub ghost limit_in_bounds: { limit ≤ most_variables },
}

// A path of a block, and its changes.
#![tactic(auto)]

ghost use Rattle.std.specs.Prelude.{◌≡◌, ◌<◌, ◌≤◌, ◌^◌, get_or, length};
ghost use Rattle.model.specs.Expression.{register_count};
ghost use Rattle.model.specs.Package.{most_instructions};
ghost use Rattle.workspace.specs.Layout.{most_variables};
ghost use Rattle.paths.specs.Walking.{raised_to, stepped_to, written_to, one_variable, OverRegisters};

use leaf_reader::Source;
use limits::REGISTERS;

// A path of a block: where it has come to, instructions run, variables so far, assumptions so far, the top of the term table, and each
// register's node.
#[derive(Clone, Copy)]
pub struct Path {
    pub counter: usize,
    pub steps: usize,
    pub variables: usize,
    pub assumptions: usize,
    pub top: usize,
    pub registers: [u32; REGISTERS],
}

impl Path {
    // The path with more nodes in the table.
    pub fn raised(self, top: usize) -> Path
        ensures { result ≡ raised_to self top }
    {
        Path { top, ..self }
    }

    // One instruction more run, on to an index.
    pub fn stepped(self, index: usize) -> Path
        requires { self.steps < most_instructions }
        ensures { result ≡ stepped_to self index }
    {
        Path {
            counter: index,
            steps: self.steps + 1,
            ..self
        }
    }

    // Register d is a node.
    pub fn written(mut self, d: u8, node: usize) -> Path
        requires { (d < register_count) × (node < 2 ^ 32) }
        ensures { result ≡ written_to self d node }
    {
        self.registers[usize::from(d)] = node as u32;
        self
    }

    // The node of a register.
    pub fn node(self, register: u8) -> usize
        requires { register < register_count }
        ensures { result ≡ get_or self.registers register 0 }
    {
        self.registers[usize::from(register)] as usize
    }

    // Bytes to be read up to an end, over the path's registers.
    pub fn source<'a>(self, bytes: &'a [u8], end: usize) -> Source<'a>
        requires { end ≤ length bytes.now }
        ensures { OverRegisters self bytes.now end result }
    {
        let registers = self.registers;
        Source {
            bytes,
            end,
            limit: REGISTERS,
            registers,
        }
    }

    // One variable more.
    pub fn with_variable(self) -> Path
        requires { self.variables < most_variables }
        ensures { result ≡ one_variable self }
    {
        Path {
            variables: self.variables + 1,
            ..self
        }
    }
}

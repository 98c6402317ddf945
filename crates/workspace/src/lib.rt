// The lent workspace: its layout as constants of code (specs/Layout has the same places by name, and says what stands where), and how it
// is cleared.
#![tactic(auto)]

ghost use Rattle.std.specs.Prelude.{◌≡◌, length, replicate};

use limits::{LEAST_WORKSPACE, MOST_ATOMS, MOST_INSTRUCTIONS, REGISTERS};

// path_room: there is room for paths of so many instructions.
const PATH_ROOM: usize = MOST_INSTRUCTIONS;

// most_variables: the numbers of variables are below this.
pub const MOST_VARIABLES: usize = REGISTERS + PATH_ROOM;

// constant_word: the constant of a linear form.
pub const CONSTANT: usize = MOST_VARIABLES + REGISTERS;

// area_words: the words of a linear form.
pub const AREA_WORDS: usize = CONSTANT + 1;

// assumption_base: where the assumptions begin.
pub const ASSUMPTIONS: usize = AREA_WORDS + PATH_ROOM;

// table_base: where the term table begins.
pub const TABLE: usize = ASSUMPTIONS + MOST_ATOMS + PATH_ROOM;

// Where the words begin that say where a node may be found, and how many there are.
pub const HINT_COUNT: usize = 1024;

pub const HINTS: usize = LEAST_WORKSPACE - HINT_COUNT;

// How many notes there are, two a word, and hint_base, where they begin.
pub const NOTE_COUNT: usize = 3936;

pub const NOTES: usize = HINTS - NOTE_COUNT / 2;

// Makes every word zero.
pub fn clear(words: &mut [u32])
    ensures { words.new ≡ replicate (length words.old) 0 }
{
    words.fill(0);
}

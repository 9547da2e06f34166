// Document 01 as definitions (specs/), with its first theorems (proofs/). There is no code to run here: only the type of a cell, which the definitions
// share with the code that reads and writes it.
#![tactic(auto)]

// A cell: its kind, its holder (0 for none, or a slot from 1), its word and its stamp. Kind and holder are numbers, as the definitions have them
// (`cell_of`): a lent area may hold any byte there.
#[derive(Clone, Copy)]
pub struct Cell {
    pub kind: u8,
    pub holder: u8,
    pub word: u32,
    pub stamp: u64,
}

// The pick rule of a wear set, on the words of its cells: group by group the truth cell's, then the erases cell's.
#![tactic(auto)]

ghost use Rattle.std.specs.Prelude.{◌≡◌, ◌/◌, length};
ghost use Rattle.pick.specs.Pick.{negative_at, picked};

// The first word that is negative as a signed number, and the last that is not: a count there can't be raised.
const NEGATIVE: u32 = 2147483648;

const LAST_COUNT: u32 = 2147483647;

// The place of the first negative count, usable or not; None if there is none.
#[tactic(auto, using(crate::proofs::Searches::negative_start, crate::proofs::Searches::negative_found, crate::proofs::Searches::negative_next))]
pub fn negative_at(words: &[u32]) -> Option<usize>
    ensures { result ≡ negative_at words.now (length words.now / 2) }
{
    for g in 0..words.len() / 2 {
        let count = words[2 * g + 1];
        if NEGATIVE <= count {
            return Some(2 * g + 1);
        }
    }
    None
}

// The usable group with the fewest erases, the lowest on a tie; None if there is none. A group at the last count can't be picked.
pub fn pick(words: &[u32]) -> Option<usize>
    ensures { result ≡ picked words.now (length words.now / 2) }
{
    let mut best = None;
    let mut fewest = LAST_COUNT;
    for g in 0..words.len() / 2 {
        let usable = words[2 * g] != 0;
        let erases = words[2 * g + 1];
        if usable && erases < fewest {
            best = Some(g);
            fewest = erases;
        }
    }
    best
}

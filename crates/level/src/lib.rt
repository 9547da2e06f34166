// The reads, group by group, and what is done with their words.
#![tactic(auto)]

ghost use Rattle.std.specs.Prelude.{◌≡◌, ◌+◌, ◌*◌, ◌^◌, ◌<◌, ◌≤◌, Some, length};
ghost use Rattle.rules.specs.Model.{controller};
ghost use Rattle.area.specs.Good.{Good, state_in};
ghost use Rattle.pick.specs.Groups.{erases, last_count};
ghost use Rattle.level.specs.Level.{writing, judged, levelling};
ghost use Rattle.level.specs.Answer.{at_place, number_in};
ghost use Rattle.level.specs.Reached.{read_all, WasRead, Reached, Comes};

use call::{Refusal, Step};

// The cells of the longest set.
const LONGEST: usize = 16;

// The number of the step that writes, and the kind of a whole number.
const WRITE: u8 = 3;

const WHOLE: u8 = 2;

// Why nothing is levelled: a refusal of the operation's own, or the core's at a read. A place is that of a cell in the set, from 0.
#[derive(Clone, Copy)]
pub enum Unlevelled {
    NotWellFormed,
    BadSet,
    NoSuchSlot,
    NotOpenAndEmpty,
    Core { place: u8, refusal: Refusal },
    NegativeCount { place: u8 },
    NoneLeft,
}

// The weights of place, code and kind in the answer.
const PLACE: u64 = 281474976710656;

pub const CODE: u64 = 1099511627776;

const KIND: u64 = 4294967296;

// Place, code, kind and word side by side.
fn side_by_side(place: u8, code: u8, kind: u8, word: u32) -> u64
    ensures { result ≡ at_place place code kind word }
{
    u64::from(place) * PLACE + u64::from(code) * CODE + u64::from(kind) * KIND + u64::from(word)
}

// The one number that C gets. The group that is levelled is a whole number.
pub fn number(levelled: Result<u8, Unlevelled>) -> u64
    ensures { result ≡ number_in levelled }
{
    match levelled {
        Ok(group) => side_by_side(0, 0, WHOLE, u32::from(group)),
        Err(Unlevelled::NotWellFormed) => side_by_side(0, 1, 0, 0),
        Err(Unlevelled::BadSet) => side_by_side(0, 32, 0, 0),
        Err(Unlevelled::NoSuchSlot) => side_by_side(0, 3, 0, 0),
        Err(Unlevelled::NotOpenAndEmpty) => side_by_side(0, 4, 0, 0),
        Err(Unlevelled::Core { place, refusal }) => {
            side_by_side(place, refusal.code(), refusal.kind(), refusal.word())
        }
        Err(Unlevelled::NegativeCount { place }) => side_by_side(place, 33, 0, 0),
        Err(Unlevelled::NoneLeft) => side_by_side(0, 34, 0, 0),
    }
}

// A wear set, and the slot for whose open transaction it is levelled. It has no more cells than the longest.
#[derive(Clone, Copy)]
pub struct WearSet<'a> {
    pub slot: u8,
    pub set: &'a [u8],
    ghost few: { length set.now ≤ 16 },
}

// Reads the cell at a place of the set: its word, or why the core refuses.
fn read_place(s: &mut [u8], of: WearSet, place: usize) -> Result<u32, Unlevelled>
    requires { Good s.old × (place < length of.set.now) }
    ensures { WasRead (state_in s.old) of.entry.slot of.entry.set.now place result s.new }
{
    match dispatch::step(s, of.slot, Ok(Step::Read(of.set[place]))) {
        Ok(answer) => Ok(answer.word()),
        Err(refusal) => Err(Unlevelled::Core {
            place: place as u8,
            refusal,
        }),
    }
}

// Reads all cells of the set, group by group, the truth cell first, and keeps their words.
fn read_all(s: &mut [u8], of: WearSet, words: &mut [u32]) -> Result<(), Unlevelled>
    requires { Good s.old × (length words.old ≡ length of.set.now) }
    ensures { Reached (read_all s.old of.entry.slot of.entry.set.now) result s.new words.new }
{
    for place in 0..words.len() {
        let word = read_place(s, of, place)?;
        words[place] = word;
    }
    Ok(())
}

// Writes the count of the group plus one. The core can't refuse the write: the slot is open, its write log empty, the cell of kind 2 and the count below the last one
// (`written` of `Left`, crate `levelling`).
fn write_count(s: &mut [u8], of: WearSet, words: &[u32], g: usize)
    requires good { Good s.old × (length words.now ≡ length of.set.now) × (2 * g + 1 < length of.set.now) }
    requires g_bound { erases words.now g < last_count }
    ensures { Comes (writing controller (state_in s.old) of.entry.slot of.entry.set.now words.now (Some g)) (number_in (Ok g)) s.new }
{
    let place = 2 * g + 1;
    let count = words[place] + 1;
    let _ = dispatch::step(s, of.slot, call::decode(WRITE, of.set[place], WHOLE, count));
}

// What the words of all cells say: a negative count, or none left, or the group that is picked.
fn judge(s: &mut [u8], of: WearSet, words: &[u32]) -> Result<u8, Unlevelled>
    requires { Good s.old × (length words.now ≡ length of.set.now) }
    ensures { Comes (judged controller (state_in s.old) of.entry.slot of.entry.set.now words.now) (number_in result) s.new }
{
    if let Some(place) = pick::negative_at(words) {
        return Err(Unlevelled::NegativeCount { place: place as u8 });
    }
    let Some(g) = pick::pick(words) else {
        return Err(Unlevelled::NoneLeft);
    };
    write_count(s, of, words, g);
    Ok(g as u8)
}

// The reads, and what is done with their words.
fn levelled(s: &mut [u8], of: WearSet) -> Result<u8, Unlevelled>
    requires { Good s.old }
    ensures { Comes (levelling controller of.entry.slot of.entry.set.now (read_all s.old of.entry.slot of.entry.set.now)) (number_in result) s.new }
{
    let mut room = [0u32; LONGEST];
    let words = &mut room[..of.set.len()];
    read_all(s, of, words)?;
    judge(s, of, words)
}

// What the operation comes to, as C gets it.
pub fn level(s: &mut [u8], of: WearSet) -> u64
    requires { Good s.old }
    ensures { Comes (levelling controller of.entry.slot of.entry.set.now (read_all s.old of.entry.slot of.entry.set.now)) result s.new }
{
    number(levelled(s, of))
}

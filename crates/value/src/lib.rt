// A cell value: a truth value, a whole number or a real, built from and turned back into the kind and word of the area.
#![tactic(auto)]

ghost use Rattle.std.specs.Prelude.{◌≡◌};
ghost use Rattle.std.specs.Float.{binary32};
ghost use Rattle.std.specs.Float.Ieee.{of_bits, to_bits};
ghost use Rattle.std.specs.Int.{w32};
ghost use Rattle.std.proofs.Common.{of_z, to_z};
ghost use Rattle.value.specs.Legal.{legal_word};
ghost use Rattle.value.specs.Value.{kind_of, word_of, parsed, value_of};

#[derive(Clone, Copy)]
pub enum CellValue {
    Truth(bool),
    Whole(i32),
    Real(f32),
}

// Whether a cell of this kind may hold this word.
// A kind is a number here and below, since it stands in lent bytes: any of 256.
#[tactic(auto, unfolding(crate::specs::Legal::legal_word, crate::specs::Legal::endless))]
pub fn legal(kind: u8, word: u32) -> bool
    ensures { result ≡ legal_word kind word }
{
    match kind {
        1 => word < 2,
        2 => true,
        3 => word / 8388608 % 256 != 255,
        _ => false,
    }
}

// The value of a kind and a word, or none.
#[tactic(auto, unfolding(crate::specs::Value::parsed))]
pub fn from_word(kind: u8, word: u32) -> Option<CellValue>
    ensures { result ≡ parsed kind word }
{
    legal(kind, word).then(|| value_of(kind, word))
}

// The value of a word that is known to be legal for its kind; defined for all words, so that no caller has to show it.
#[tactic(auto, unfolding(crate::specs::Value::value_of))]
pub fn value_of(kind: u8, word: u32) -> CellValue
    ensures { result ≡ value_of kind word }
{
    match kind {
        1 => CellValue::Truth(word == 1),
        2 => CellValue::Whole(word.cast_signed()),
        _ => CellValue::Real(real(word)),
    }
}

// A NaN's pattern, above that of infinity but for the sign, may not be read: all of them are one NaN.
fn real(word: u32) -> f32
    ensures { result ≡ of_bits binary32 word }
{
    if 2139095040 < word % 2147483648 {
        return 0.0 / 0.0;
    }
    f32::from_bits(word)
}

impl CellValue {
    pub fn kind(self) -> u8
        ensures { result ≡ kind_of self }
    {
        match self {
            CellValue::Truth(_) => 1,
            CellValue::Whole(_) => 2,
            CellValue::Real(_) => 3,
        }
    }

    pub fn word(self) -> u32
        ensures { result ≡ word_of self }
    {
        match self {
            CellValue::Truth(yes) => u32::from(yes),
            CellValue::Whole(number) => number.cast_unsigned(),
            CellValue::Real(number) => real_word(number),
        }
    }
}

// A NaN, which alone differs from itself, has no pattern of its own: 7fc00000 stands for it.
fn real_word(number: f32) -> u32
    ensures { result ≡ to_bits binary32 number }
{
    if number != number {
        return 2143289344;
    }
    f32::to_bits(number)
}

// The entries of a slot's logs and its fields of one byte, each at a place of its own.
#![tactic(auto)]

ghost use Rattle.std.specs.Prelude.{List, ℕ, ◌≡◌, ◌+◌, ◌*◌, ◌≤◌, length, drop};
ghost use Rattle.wire.specs.Part.{splice};
ghost use Rattle.slot.specs.Layout.{
  write_capacity,
  read_size,
  read_of,
  read_bytes,
  write_size,
  write_of,
  write_bytes,
  start_at,
};
ghost use Rattle.slot.proofs.Entry.{length-read_bytes, length-write_bytes};
ghost use Rattle.entries.specs.Entries.{read_here, write_here, write_log_here, read_put, write_put, first_put};

use slot::{ReadEntry, SlotRecord, WriteEntry};

// An entry of a log, as it stands in a slot's bytes: how many they are, what they stand for, and what they are.
pub trait Entry: Copy {
    const SIZE: usize;

    ghost SIZE: { ℕ };

    ghost of: { List ℕ → Self };

    ghost bytes: { Self → List ℕ };

    // The entry at `at`.
    fn read(s: &[u8], at: usize) -> Self
        requires { at + SIZE ≤ length s.now }
        ensures { result ≡ of (drop at s.now) };

    // Puts the entry at `at`.
    fn put(self, s: &mut [u8], at: usize)
        requires { at + SIZE ≤ length s.old }
        ensures { s.new ≡ splice s.old at (bytes self) };

    ghost sized: { (e : Self) → length (bytes e) ≡ SIZE };
}

impl Entry for ReadEntry {
    const SIZE: usize = ReadEntry::SIZE;

    ghost SIZE = { read_size };

    ghost of = { read_of };

    ghost bytes = { read_bytes };

    ghost sized = { length-read_bytes };

    fn read(s: &[u8], at: usize) -> Self
        requires { at + read_size ≤ length s.now }
        ensures { result ≡ read_here at s.now }
    {
        ReadEntry {
            cell: s[at],
            mark: s[at + 1] == 1,
            word: wire::word_at(s, at + 2),
        }
    }

    fn put(self, s: &mut [u8], at: usize)
        requires { at + read_size ≤ length s.old }
        ensures { s.new ≡ read_put at s.old self }
    {
        s[at] = self.cell;
        s[at + 1] = u8::from(self.mark);
        wire::put(s, at + 2, 4, u64::from(self.word));
    }
}

impl Entry for WriteEntry {
    const SIZE: usize = WriteEntry::SIZE;

    ghost SIZE = { write_size };

    ghost of = { write_of };

    ghost bytes = { write_bytes };

    ghost sized = { length-write_bytes };

    fn read(s: &[u8], at: usize) -> Self
        requires { at + write_size ≤ length s.now }
        ensures { result ≡ write_here at s.now }
    {
        WriteEntry {
            cell: s[at],
            word: wire::word_at(s, at + 1),
        }
    }

    fn put(self, s: &mut [u8], at: usize)
        requires { at + write_size ≤ length s.old }
        ensures { s.new ≡ write_put at s.old self }
    {
        s[at] = self.cell;
        wire::put(s, at + 1, 4, u64::from(self.word));
    }
}

// The write log at `at`.
pub fn writes_of(s: &[u8], at: usize) -> [WriteEntry; SlotRecord::WRITES]
    requires { at + write_size * write_capacity ≤ length s.now }
    ensures { result ≡ write_log_here at s.now }
{
    let mut log = [WriteEntry { cell: 0, word: 0 }; SlotRecord::WRITES];
    for (i, entry) in log.iter_mut().enumerate() {
        *entry = WriteEntry::read(s, at + WriteEntry::SIZE * i);
    }
    log
}

// Puts the fields of one byte at `at`.
pub fn put_first(s: &mut [u8], at: usize, v: &SlotRecord)
    requires { at + start_at ≤ length s.old }
    ensures { s.new ≡ first_put at s.old v.now.phase v.now.ignoring v.now.taken v.now.readcount v.now.writecount }
{
    s[at] = v.phase;
    s[at + 1] = u8::from(v.ignoring);
    s[at + 2] = v.taken;
    s[at + 3] = v.readcount;
    s[at + 4] = v.writecount;
}

// A slot's bytes in place: its record without the logs, entries of the logs where they stand, and each part of a record put where it stands.
#![tactic(auto)]

ghost use Rattle.std.specs.Prelude.{◌≡◌, ◌+◌, ◌*◌, ◌≤◌, ◌<◌, length, get_or};
ghost use Rattle.wire.specs.Part.{splice};
ghost use Rattle.wire.specs.Table.{cat};
ghost use Rattle.slot.specs.Layout.{read_capacity, write_capacity, slot_size};
ghost use Rattle.packed.specs.Places.{
  fields_at,
  with_writes_at,
  Ascends,
  read_entry_at,
  write_entry_at,
  read_found_at,
  write_found_at,
  marked_at,
  slot_cleared,
  fields_put,
  read_entry_put,
  read_log_put,
  write_log_put,
};

use entries::Entry;
use slot::{ReadEntry, SlotRecord, WriteEntry};

// A slot's place is `s`, `at` and `width`, with one fact about them in each contract. Rattle takes a struct of the three with that fact as a ghost field, but it is no
// plainer: the functions that write would need a second one, and each clause would say `self.entry.width self.entry.at self.entry.bytes.now` for `width at s.now`.

// The bytes of the read log, which the write log follows.
const READ_LOG: usize = ReadEntry::SIZE * SlotRecord::READS;

// The slot at `at` with empty logs.
pub fn fields(s: &[u8], at: usize, width: usize) -> SlotRecord
    requires { (width ≤ 8) × (at + slot_size width ≤ length s.now) }
    ensures { result ≡ fields_at width at s.now }
{
    let mut v = SlotRecord::empty();
    v.phase = s[at];
    v.ignoring = s[at + 1] == 1;
    v.taken = s[at + 2];
    v.readcount = s[at + 3];
    v.writecount = s[at + 4];
    v.start = wire::get(s, at + 5, width);
    v.commit = wire::get(s, at + 5 + width, width);
    v
}

// The slot at `at` with its write log alone.
pub fn with_writes(s: &[u8], at: usize, width: usize) -> SlotRecord
    requires { (width ≤ 8) × (at + slot_size width ≤ length s.now) }
    ensures { result ≡ with_writes_at width at s.now }
{
    let writes = entries::writes_of(s, at + 5 + 2 * width + READ_LOG);
    let mut v = fields(s, at, width);
    v.writes = writes;
    v
}

// Read entry `k` of the slot at `at`.
pub fn read_at(s: &[u8], at: usize, width: usize, k: usize) -> ReadEntry
    requires { (width ≤ 8) × (at + slot_size width ≤ length s.now) × (k < read_capacity) }
    ensures { result ≡ read_entry_at width at s.now k }
{
    ReadEntry::read(s, at + 5 + 2 * width + ReadEntry::SIZE * k)
}

// Write entry `k` of the slot at `at`. It stands beside `read_at`: a generic one would need the place of its log as one more parameter, and is one line as well.
pub fn write_at(s: &[u8], at: usize, width: usize, k: usize) -> WriteEntry
    requires { (width ≤ 8) × (at + slot_size width ≤ length s.now) × (k < write_capacity) }
    ensures { result ≡ write_entry_at width at s.now k }
{
    WriteEntry::read(s, at + 5 + 2 * width + READ_LOG + WriteEntry::SIZE * k)
}

// The read entry of a cell.
pub fn find_read(s: &[u8], at: usize, width: usize, cell: u8) -> Option<ReadEntry>
    requires { (width ≤ 8) × (at + slot_size width ≤ length s.now) }
    ensures { result ≡ read_found_at width at s.now cell }
{
    let count = SlotRecord::READS.min(usize::from(s[at + 3]));
    (0..count)
        .map(|k| read_at(s, at, width, k))
        .find(|e| e.cell == cell)
}

// The write entry of a cell. The log ascends: the first entry that is not below the cell is its own, or there is none.
pub fn find_write(s: &[u8], at: usize, width: usize, cell: u8) -> Option<WriteEntry>
    requires { (width ≤ 8) × (at + slot_size width ≤ length s.now) × Ascends width at s.now }
    ensures { result ≡ write_found_at width at s.now cell }
{
    let count = SlotRecord::WRITES.min(usize::from(s[at + 4]));
    for k in 0..count {
        let e = write_at(s, at, width, k);
        if cell <= e.cell {
            if e.cell == cell {
                return Some(e);
            }
            return None;
        }
    }
    None
}

// Whether an entry of the read log is marked.
pub fn some_marked(s: &[u8], at: usize, width: usize) -> bool
    requires { (width ≤ 8) × (at + slot_size width ≤ length s.now) }
    ensures { result ≡ marked_at width at s.now }
{
    let count = SlotRecord::READS.min(usize::from(s[at + 3]));
    (0..count).map(|k| read_at(s, at, width, k)).any(|e| e.mark)
}

// Clears the slot at `at` to zero throughout.
pub fn clear(s: &mut [u8], at: usize, width: usize)
    requires { (width ≤ 8) × (at + slot_size width ≤ length s.old) }
    ensures { s.new ≡ slot_cleared width at s.old }
{
    let size = 5 + 2 * width + READ_LOG + WriteEntry::SIZE * SlotRecord::WRITES;
    s[at..at + size].fill(0);
}

// Puts all but the logs at `at`.
pub fn put_fields(s: &mut [u8], at: usize, width: usize, v: SlotRecord)
    requires { at + slot_size width ≤ length s.old }
    ensures { s.new ≡ fields_put width at s.old v }
{
    entries::put_first(s, at, &v);
    wire::put(s, at + 5, width, v.start);
    wire::put(s, at + 5 + width, width, v.commit);
}

// Puts read entry `k` of the slot at `at`.
pub fn put_read(s: &mut [u8], at: usize, width: usize, k: usize, v: SlotRecord)
    requires { (at + slot_size width ≤ length s.old) × (k < read_capacity) }
    ensures { s.new ≡ read_entry_put width at s.old k v }
{
    v.reads[k].put(s, at + 5 + 2 * width + ReadEntry::SIZE * k);
}

// Puts the entries of a log one after the other, from `at` on.
fn put_log<E: Entry>(s: &mut [u8], at: usize, log: &[E])
    requires { at + E.SIZE * length log.now ≤ length s.old }
    ensures { (d : E) → s.new ≡ splice s.old at (cat (length log.now) (λ i. E.bytes (get_or log.now i d))) }
{
    for (i, entry) in log.iter().enumerate() {
        entry.put(s, at + E::SIZE * i);
    }
}

// Puts the read log of the slot at `at`.
pub fn put_reads(s: &mut [u8], at: usize, width: usize, v: SlotRecord)
    requires { at + slot_size width ≤ length s.old }
    ensures { s.new ≡ read_log_put width at s.old v }
{
    put_log(s, at + 5 + 2 * width, &v.reads);
}

// Puts the write log of the slot at `at`.
pub fn put_writes(s: &mut [u8], at: usize, width: usize, v: SlotRecord)
    requires { at + slot_size width ≤ length s.old }
    ensures { s.new ≡ write_log_put width at s.old v }
{
    put_log(s, at + 5 + 2 * width + READ_LOG, &v.writes);
}

// The operations of a slot's record: each takes the record and hands back the next one. What a step asks before is its own.
ghost use Rattle.std.specs.Prelude.{◌≡◌, ◌<◌, ◌≤◌, ◌++◌, length, take, drop, option_to_list};
ghost use Rattle.slot.specs.Layout.{read_capacity};
ghost use Rattle.slot.specs.Logs.{Ascending, put_write, has_mark};
ghost use Rattle.slot.specs.Operations.{
  Writable,
  idled,
  begun,
  joined,
  written,
  closed,
  locked_one,
  entered,
  reloaded_with,
  ignoring_set,
  finished,
  published_one,
};

use crate::{ReadEntry, SlotRecord, WriteEntry};
use std::mem;

// Carries an entry up a write log of `count` entries to its place, and from there on each entry by one. Hands back the last one, which needs a place more, unless
// the log had an entry of the cell. The count stands beside the array: what a part of a field's array holds once it was lent, as `&mut self.writes[..count]`, no proof
// could say.
fn carry(log: &mut [WriteEntry], count: usize, e: WriteEntry) -> Option<WriteEntry>
    requires { (count ≤ length log.old) × Ascending (take count log.old) }
    ensures put { take count log.new ++ option_to_list result ≡ put_write e (take count log.old) }
    ensures rest { drop count log.new ≡ drop count log.old }
{
    let mut carried = e;
    for here in &mut log[..count] {
        if carried.cell == here.cell {
            *here = carried;
            return None;
        }
        if carried.cell < here.cell {
            mem::swap(here, &mut carried);
        }
    }
    Some(carried)
}

impl SlotRecord {
    // give up, and a finish that aborts: whatever the slot was
    pub fn idled(self) -> Self
        ensures { result ≡ idled self }
    {
        SlotRecord::empty()
    }

    // begin
    pub fn begun(self, start: u64) -> Self
        ensures { result ≡ begun self start }
    {
        let mut v = self.idled();
        v.phase = 1;
        v.start = start;
        v
    }

    // read, when the cell joins the read log
    pub fn joined(mut self, e: ReadEntry) -> Self
        requires { self.readcount < read_capacity }
        ensures { result ≡ joined self e }
    {
        let at = usize::from(self.readcount);
        self.reads[at] = e;
        self.readcount += 1;
        self
    }

    // write, and update: the entry is put into the write log, in place of its cell's if it has one. Inlined, so that the record handed in and the one handed back
    // share their place on the stack.
    #[inline(always)]
    pub fn written(mut self, e: WriteEntry) -> Self
        requires { Writable self e }
        ensures { result ≡ written self e }
    {
        let count = usize::from(self.writecount);
        if let Some(last) = carry(&mut self.writes, count, e) {
            self.writes[count] = last;
            self.writecount += 1;
        }
        self
    }

    // close
    pub fn closed(mut self) -> Self
        ensures { result ≡ closed self }
    {
        self.phase = 2;
        self
    }

    // lock
    pub fn locked_one(mut self) -> Self
        requires { self.taken < 255 }
        ensures { result ≡ locked_one self }
    {
        self.taken += 1;
        self
    }

    // enter
    pub fn entered(mut self, reads: [ReadEntry; SlotRecord::READS], commit: u64) -> Self
        ensures { result ≡ entered self reads commit }
    {
        self.phase = 3;
        self.taken = 0;
        self.commit = commit;
        self.reads = reads;
        self
    }

    // reload
    pub fn reloaded(mut self, reads: [ReadEntry; SlotRecord::READS], commit: u64) -> Self
        ensures { result ≡ reloaded_with self reads commit }
    {
        self.ignoring = false;
        self.commit = commit;
        self.reads = reads;
        self
    }

    // ignore, when an entry is marked
    pub fn ignoring_set(mut self) -> Self
        ensures { result ≡ ignoring_set self }
    {
        self.ignoring = true;
        self
    }

    // finish, when the transaction is committed
    #[tactic(auto, unfolding(crate::specs::Operations::finished))]
    pub fn finished(mut self) -> Self
        ensures { result ≡ finished self }
    {
        if self.writecount == 0 {
            return self.idled();
        }
        self.phase = 4;
        self
    }

    // publish
    #[tactic(auto, unfolding(crate::specs::Operations::published_one))]
    pub fn published_one(mut self) -> Self
        requires { self.taken < 255 }
        ensures { result ≡ published_one self }
    {
        let next = self.taken + 1;
        if next < self.writecount {
            self.taken = next;
            return self;
        }
        self.idled()
    }

    // Whether an entry of the read log is marked.
    pub fn some_marked(self) -> bool
        ensures { result ≡ has_mark self }
    {
        let count = usize::from(self.readcount);
        self.reads.iter().take(count).any(|e| e.mark)
    }
}

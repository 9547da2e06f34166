// An area past a right header, and a slot in it: what a header and right counts show of the bytes that are read.
ghost use Rattle.std.specs.Prelude.{◌≤◌, length};
ghost use Rattle.slot.specs.Layout.{slot_size};
ghost use Rattle.logcheck.specs.Frame.{Framed};
ghost use Rattle.logcheck.specs.Logged.{Counted};

// An area of `cells` cells, past a right header: on that every reader of its parts relies.
#[derive(Clone, Copy)]
pub struct Frame<'a> {
    pub bytes: &'a [u8],
    pub cells: usize,
    ghost framed: { Framed cells bytes.now },
}

// The bytes from a slot on.
#[derive(Clone, Copy)]
pub struct SlotBytes<'a> {
    pub bytes: &'a [u8],
    ghost whole: { slot_size 8 ≤ length bytes.now },
}

// The bytes from a slot on whose counts are at most the capacities, so that its logs may be read.
#[derive(Clone, Copy)]
pub struct CountedSlot<'a> {
    pub bytes: &'a [u8],
    ghost counted: { Counted bytes.now },
}

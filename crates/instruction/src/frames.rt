// The frames of calls: places in code, the last in use on top.
ghost use Rattle.std.specs.Prelude.{◌≡◌, ◌+◌, ◌<◌, ◌≤◌, true, false, length, slice_index, slice_set};
ghost use Rattle.std.specs.Option.{MatchOption};

// Frames that are lent, and how many of them are in use.
#[derive(Drop)]
pub struct Frames<'a> {
    pub depth: usize,
    pub places: &'a mut [u64],
    pub ghost deep: { depth ≤ length places.now },
}

impl Frames<'_> {
    // One more in use, that holds this place; false where all are in use.
    pub fn push(&mut self, place: u64) -> bool
        ensures same_reference { self.new.places.ghost_name ≡ self.old.places.ghost_name }
        ensures full { result ≡ false
            → (length self.old.places.now ≤ self.old.depth)
            × (self.new.depth ≡ self.old.depth)
            × (self.new.places.now ≡ self.old.places.now) }
        ensures pushed { result ≡ true
            → (self.old.depth < length self.old.places.now)
            × (self.new.depth ≡ self.old.depth + 1)
            × (self.new.places.now ≡ slice_set self.old.places.now self.old.depth place) }
    {
        let depth = self.depth;
        if self.places.len() <= depth {
            return false;
        }
        self.places[depth] = place;
        self.depth = depth + 1;
        true
    }

    // The place that the last in use holds; it is in use no longer.
    pub fn pop(&mut self) -> Option<u64>
        ensures same_reference { self.new.places.ghost_name ≡ self.old.places.ghost_name }
        ensures places { self.new.places.now ≡ self.old.places.now }
        ensures popped { MatchOption result ((self.old.depth ≡ 0) × (self.new.depth ≡ 0)) (λ place.
            (self.old.depth ≡ self.new.depth + 1) × (place ≡ slice_index self.old.places.now self.new.depth)) }
    {
        if self.depth == 0 {
            return None;
        }
        self.depth -= 1;
        Some(self.places[self.depth])
    }
}

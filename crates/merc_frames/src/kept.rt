//! What is kept of frames that are not the current one.

// A caller's frame: where its slots begin, how many they are, and the place at which the caller goes on. The last of the
// first `parent` saved frames is the frame of its own caller; there is none where `parent` is 0.
#[derive(Clone, Copy, Drop)]
pub(crate) struct Saved {
    pub(crate) base: usize,
    pub(crate) size: usize,
    pub(crate) place: usize,
    pub(crate) parent: usize,
}

// A choice point: a frame that nobody writes, where it goes on, the mark of the heap, its callers, and how many saved
// frames stood. One that is not live only fails, and keeps what it kept.
#[derive(Clone, Copy, Drop)]
pub(crate) struct Kept {
    pub(crate) live: bool,
    pub(crate) base: usize,
    pub(crate) size: usize,
    pub(crate) place: usize,
    pub(crate) heap: usize,
    pub(crate) height: usize,
    pub(crate) saved: usize,
}
